// The last ideal of the endless walk at a distance of at most y, by halving: that for y comes from the one for y div 2
// by a giant step with itself and then single steps. A loop over the binary digits of y from the first on does the same
// without recursion, so that the depth of the stack does not grow with y.
#![tactic(auto)]

ghost use Rattle.std.specs.Prelude.{◌≡◌, ◌/◌, ◌^◌, ◌≤◌, [], ◌∷◌};
ghost use Rattle.spec_definitions.specs.Products.{farthest};
ghost use Rattle.base_polynomial.specs.Whole.{Holds};
ghost use Rattle.ideal_climb.specs.Located.{IsLast};

use base_counters::Distance;
use base_ideal::Ideal;
use base_surd::Surd;
use ideal_climb::climb;
use ideal_giant::step::giant;
use walk_state::root::Root;

// How many binary digits y has.
fn digits(y: Distance) -> u32
    requires { y.0 ≤ farthest }
    ensures { (y.0 / 2 ^ result ≡ 0) × (result ≤ 41) }
{
    64 - y.0.leading_zeros()
}

// z becomes the first ideal of the walk, Q = 1 and P = 0.
fn first(z: &mut Ideal)
    ensures { Holds z.new.q (1 ∷ []) × Holds z.new.p [] }
{
    *z = Ideal::zeros();
    z.q.c[0] = 1;
    z.q.size = 1;
}

// z becomes the last ideal at a distance of at most y, from the last one for y div 2, which it holds, at the distance
// `at`: a giant step with itself, then single steps. The distance of z.
fn from_half(r: &Root, z: &mut Ideal, at: Distance, y: Distance) -> Distance
    requires last { IsLast r.now.surd (y.0 / 2) z.old at }
    requires y_le_farthest { y.0 ≤ farthest }
    ensures { IsLast r.now.surd y.0 z.new result }
{
    let mut a = Ideal::zeros();
    let t = giant(r, z, at, z, at, &mut a);
    climb(r, &mut a, Distance(t.distance as u64), y, z)
}

// z becomes the last ideal at a distance of at most y: the digits of y come one after the other, from the first on, and
// with each the ideal for the number of the digits so far. The distance of z.
fn halving(r: &Root, y: Distance, z: &mut Ideal) -> Distance
    requires { y.0 ≤ farthest }
    ensures { IsLast r.now.surd y.0 z.new result }
{
    first(z);
    let mut at = Distance(0);
    for k in (0..digits(y)).rev() {
        at = from_half(r, z, at, Distance(y.0 >> k));
    }
    at
}

// z becomes the last ideal of the endless walk at a distance of at most y, which is at most 2⁴⁰. The distance of z.
pub fn ideal_below(s: &Surd, y: Distance, z: &mut Ideal) -> Distance
    requires { y.0 ≤ farthest }
    ensures { IsLast s.now y.0 z.new result }
{
    let r = Root::new(s);
    halving(&r, y, z)
}
