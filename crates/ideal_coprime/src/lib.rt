// The product of two ideals where Q_1 and Q_2 have no common factor, from Bezout's factor U of Q_1: Q is
// Q_1.Q_2, and P is P_1 − Q_1·(U·(P_1 − P_2) mod Q_2).
#![tactic(auto)]

ghost use Rattle.std.specs.Prelude.{◌<◌, ◌≤◌};
ghost use Rattle.spec_arithmetic.specs.Polynomials.{sub as sub_of, mul as mul_of, rem as rem_of};
ghost use Rattle.base_field.specs.Named.{ops};
ghost use Rattle.base_polynomial.specs.Whole.{poly, Held, Is};

use base_division::difference::subtract_product;
use base_division::division::remainder;
use base_field::Field;
use base_ideal::Ideal;
use base_polynomial::Poly;
use base_polynomial::ring::{multiply, subtract};

// z becomes u·(x − y) modulo b, which is not 0.
fn factor(f: Field, u: &Poly, x: &Poly, y: &Poly, b: &Poly, z: &mut Poly)
    requires sizes { (u.now.size ≤ 65) × (x.now.size ≤ 65) × (y.now.size ≤ 65) × (0 < b.now.size) }
    requires held { Held f u.now × Held f x.now × Held f y.now × Held f b.now }
    ensures { Is f z.new (rem_of (ops f) (mul_of (ops f) (poly u.now) (sub_of (ops f) (poly x.now) (poly y.now))) (poly b.now)) }
{
    let mut difference = Poly::zero();
    subtract(f, x, y, &mut difference);
    multiply(f, u, &difference, z);
    remainder(f, z, b);
}

// z becomes Q and P of the product of x, (Q_1, P_1), and y, (Q_2, P_2).
pub fn coprime(f: Field, x: &Ideal, y: &Ideal, u: &Poly, z: &mut Ideal)
    requires sizes_x { (x.now.q.size ≤ 65) × (x.now.p.size ≤ 65) }
    requires sizes_y { (0 < y.now.q.size) × (y.now.q.size ≤ 65) × (y.now.p.size ≤ 65) }
    requires size_u { u.now.size ≤ 65 }
    requires held { Held f x.now.q × Held f x.now.p × Held f y.now.q × Held f y.now.p × Held f u.now }
    ensures q { Is f z.new.q (mul_of (ops f) (poly x.now.q) (poly y.now.q)) }
    ensures p { Is f z.new.p (sub_of (ops f) (poly x.now.p) (mul_of (ops f) (poly x.now.q) (rem_of (ops f) (mul_of (ops f) (poly u.now) (sub_of (ops f) (poly x.now.p) (poly y.now.p))) (poly y.now.q)))) }
{
    let mut t = Poly::zero();
    factor(f, u, &x.p, &y.p, &y.q, &mut t);
    z.p = x.p;
    subtract_product(f, &mut z.p, &x.q, &t);
    multiply(f, &x.q, &y.q, &mut z.q);
}
