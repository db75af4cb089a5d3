// The product of two ideals where Q_1 and Q_2 have a common factor: S by a second greatest common divisor, Q is
// (Q_1/S)·(Q_2/S), and P is P_1 − (Q_1/S)·(U·(P_1 − P_2) − W·(D − P_1²)/Q_1) modulo Q.
#![tactic(auto)]

ghost use Rattle.std.specs.Prelude.{◌+◌, ◌<◌, ◌≤◌};
ghost use Rattle.spec_arithmetic.specs.Polynomials.{add as add_of, sub as sub_of, mul as mul_of, quo as quo_of, rem as rem_of, gcd as gcd_of, bezout as bezout_of};
ghost use Rattle.spec_laws.specs.Pairs.{cofactor_at};
ghost use Rattle.base_field.specs.Named.{ops};
ghost use Rattle.base_polynomial.specs.Whole.{poly, Held, Is};
ghost use Rattle.ideal_operand.specs.Ideal.{held_pair, Operand, Multiplied};

use base_division::difference::subtract_product;
use base_division::division::{quotient, remainder};
use base_euclid::bezout::bezout;
use base_field::Field;
use base_ideal::Ideal;
use base_polynomial::Poly;
use base_polynomial::ring::{add, multiply, subtract};
use base_surd::Surd;
use ideal_operand::cofactor::cofactor;

// s becomes S = gcd(h, P_1 + P_2) = x·h + W·(P_1 + P_2), u becomes x·y and w W. In the product h is
// gcd(Q_1, Q_2), and y its factor of Q_1. What h holds is used up.
fn multipliers(
    f: Field,
    h: &mut Poly,
    y: &Poly,
    p1: &Poly,
    p2: &Poly,
    s: &mut Poly,
    u: &mut Poly,
    w: &mut Poly,
)
    requires sizes { (y.now.size ≤ 64) × (p1.now.size ≤ 64) × (p2.now.size ≤ 64) }
    requires held { Held f h.old × Held f y.now × Held f p1.now × Held f p2.now }
    ensures common { Is f s.new (gcd_of (ops f) (poly h.old) (add_of (ops f) (poly p1.now) (poly p2.now))) }
    ensures first { Is f u.new (mul_of (ops f) (bezout_of (ops f) (poly h.old) (add_of (ops f) (poly p1.now) (poly p2.now))).u (poly y.now)) }
    ensures last { Is f w.new (bezout_of (ops f) (poly h.old) (add_of (ops f) (poly p1.now) (poly p2.now))).v }
{
    let mut sum = Poly::zero();
    add(f, p1, p2, &mut sum);
    let mut x = Poly::zero();
    bezout(f, h, &mut sum, s, &mut x, w);
    multiply(f, &x, y, u);
}

// first becomes Q_1/S and q becomes (Q_1/S)·(Q_2/S), where S is not 0.
fn norm(f: Field, q1: &Poly, q2: &Poly, s: &Poly, first: &mut Poly, q: &mut Poly)
    requires sizes { (q1.now.size ≤ 64) × (q2.now.size ≤ 64) × (0 < s.now.size) }
    requires held { Held f q1.now × Held f q2.now × Held f s.now }
    ensures first { Is f first.new (quo_of (ops f) (poly q1.now) (poly s.now)) }
    ensures norm { Is f q.new (mul_of (ops f) (quo_of (ops f) (poly q1.now) (poly s.now)) (quo_of (ops f) (poly q2.now) (poly s.now))) }
{
    quotient(f, q1, s, first);
    let mut second = Poly::zero();
    quotient(f, q2, s, &mut second);
    multiply(f, first, &second, q);
}

// z becomes U·(P_1 − P_2) − W·(D − P_1²)/Q_1, where x is (Q_1, P_1).
fn bracket(s: &Surd, x: &Ideal, p2: &Poly, u: &Poly, w: &Poly, z: &mut Poly)
    requires operand { Operand s.now x.now }
    requires sizes { (p2.now.size ≤ 65) × (u.now.size ≤ 65) × (w.now.size ≤ 65) }
    requires held { Held s.now.field p2.now × Held s.now.field u.now × Held s.now.field w.now }
    ensures { Is s.now.field z.new (sub_of (ops s.now.field) (mul_of (ops s.now.field) (poly u.now) (sub_of (ops s.now.field) (poly x.now.p) (poly p2.now))) (mul_of (ops s.now.field) (poly w.now) (cofactor_at (ops s.now.field) (poly s.now.radicand) (held_pair x.now)))) }
{
    let f = s.field;
    let mut difference = Poly::zero();
    subtract(f, &x.p, p2, &mut difference);
    multiply(f, u, &difference, z);
    let mut c = Poly::zero();
    cofactor(f, &s.radicand, x, &mut c);
    subtract_product(f, z, w, &c);
}

// p becomes P_1 − a·b modulo Q, which is not 0.
fn residue(f: Field, p1: &Poly, a: &Poly, b: &Poly, q: &Poly, p: &mut Poly)
    requires sizes { (0 < q.now.size) × (a.now.size + b.now.size ≤ 130) }
    requires held { Held f p1.now × Held f a.now × Held f b.now × Held f q.now }
    ensures { Is f p.new (rem_of (ops f) (sub_of (ops f) (poly p1.now) (mul_of (ops f) (poly a.now) (poly b.now))) (poly q.now)) }
{
    *p = *p1;
    subtract_product(f, p, a, b);
    remainder(f, p, q);
}

// `common` becomes S and z becomes (Q, P) of the product of x, (Q_1, P_1), and y, (Q_2, P_2), from gcd(Q_1, Q_2) in h
// and its factor of Q_1 in `part`. What h holds is used up.
pub fn shared(
    s: &Surd,
    x: &Ideal,
    y: &Ideal,
    h: &mut Poly,
    part: &Poly,
    common: &mut Poly,
    z: &mut Ideal,
)
    requires operands { Operand s.now x.now × Operand s.now y.now }
    requires gcd { Is s.now.field h.old (bezout_of (ops s.now.field) (poly x.now.q) (poly y.now.q)).gcd }
    requires part { Is s.now.field part.now (bezout_of (ops s.now.field) (poly x.now.q) (poly y.now.q)).u }
    ensures { Multiplied s.now x.now y.now common.new z.new }
{
    let f = s.field;
    let mut u = Poly::zero();
    let mut w = Poly::zero();
    multipliers(f, h, part, &x.p, &y.p, common, &mut u, &mut w);
    let mut first = Poly::zero();
    norm(f, &x.q, &y.q, common, &mut first, &mut z.q);
    let mut b = Poly::zero();
    bracket(s, x, &y.p, &u, &w, &mut b);
    residue(f, &x.p, &first, &b, &z.q, &mut z.p);
}
