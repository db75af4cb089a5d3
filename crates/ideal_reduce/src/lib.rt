// The reduction of a pair: steps of the walk until the degree of Q is at most g. D − P² is divided by Q once, for the
// Q before the first.
#![tactic(auto)]

ghost use Rattle.std.specs.Prelude.{◌<◌, ◌≤◌};
ghost use Rattle.walk_state.specs.Root.{top};
ghost use Rattle.ideal_operand.specs.Ideal.{held_pair};
ghost use Rattle.ideal_descend.specs.Turn.{Reduces};
ghost use Rattle.ideal_reduce.specs.Start.{Start};

use base_ideal::{Ideal, normal};
use base_places::linear::{add_places, sub_places};
use base_polynomial::Poly;
use ideal_descend::{Stage, descend, height};
use ideal_operand::cofactor::cofactor;
use walk_state::root::Root;

// z becomes the reduced ideal of a, whose Q has a degree above g, by one step or more. The Q before the first is
// (D − P²)/Q, and the remainder before it d − P. What a holds is used up.
fn from_first(r: &Root, a: &mut Ideal, z: &mut Ideal) -> u64
    requires high { top r.now ≤ a.old.q.size }
    requires start { Start r.now.surd a.old }
    ensures { Reduces r.now.surd (held_pair a.old) z.new result }
{
    let f = r.surd.field;
    let m = a.q.size;
    let mut before = Poly::zero();
    cofactor(f, &r.surd.radicand, a, &mut before);
    let mut rest = [0u32; 129];
    sub_places(f, &r.d, &a.p.c, m, &mut rest);
    let at = Stage { top: m, sum: 0 };
    descend(r, &mut before, &mut a.q, &mut rest, at, z)
}

// The same where deg Q is above g + 1, the degree of d. Then a_0 is 0, the next Q is (D − P²)/Q and the remainder
// P + d, so that the steps start at index 1.
fn from_second(r: &Root, a: &mut Ideal, z: &mut Ideal) -> u64
    requires high { top r.now < a.old.q.size }
    requires start { Start r.now.surd a.old }
    ensures { Reduces r.now.surd (held_pair a.old) z.new result }
{
    let f = r.surd.field;
    let m = a.q.size;
    let mut next = Poly::zero();
    cofactor(f, &r.surd.radicand, a, &mut next);
    let mut rest = [0u32; 129];
    add_places(f, &r.d, &a.p.c, m, &mut rest);
    let top = height(&r.twice, &rest, m);
    let at = Stage {
        top,
        sum: (top - next.size) as u64,
    };
    descend(r, &mut a.q, &mut next, &mut rest, at, z)
}

// z becomes the first pair (Q_k, P_k) of the steps from a, k from 0 on, with deg Q_k at most g, Q_k monic and P_k
// modulo it. The sum of deg a_j for j from 1 to k. What a holds is used up.
pub fn reduce(r: &Root, a: &mut Ideal, z: &mut Ideal) -> u64
    requires { Start r.now.surd a.old }
    ensures { Reduces r.now.surd (held_pair a.old) z.new result }
{
    let top = r.top();
    if top < a.q.size {
        from_second(r, a, z)
    } else if top == a.q.size {
        from_first(r, a, z)
    } else {
        z.p = a.p;
        normal(r.surd.field, &a.q, z);
        0
    }
}
