// The greatest common divisor with Bezout's factors, on polynomials that take turns: a becomes the remainder by b,
// and b is the first of the next pair.
ghost use Rattle.std.specs.Prelude.{[], ◌∷◌};
ghost use Rattle.spec_arithmetic.specs.Polynomials.{trim, lead as lead_of, monic as monic_of, bezout as bezout_of};
ghost use Rattle.base_field.specs.Named.{ops, Ok};
ghost use Rattle.base_polynomial.specs.Whole.{poly, Held, Is};

use base_division::difference::subtract_product;
use base_division::division::{divide, remainder};
use base_field::Field;
use base_places::linear::top;
use base_polynomial::Poly;
use base_polynomial::ring::{lead_inverse, monic_by};

// u becomes the constant c.
fn constant(f: Field, c: u32, u: &mut Poly)
    requires { Ok f c }
    ensures { Is f u.new (trim (ops f) (c ∷ [])) }
{
    *u = Poly::zero();
    u.c[0] = c;
    u.size = top(&u.c, 1);
}

// Of a and 0.
fn bezout_zero(f: Field, a: &Poly, g: &mut Poly, u: &mut Poly, v: &mut Poly)
    requires { Held f a.now }
    ensures gcd { Is f g.new (monic_of (ops f) (poly a.now)) }
    ensures first { Is f u.new (trim (ops f) ((ops f).inv (lead_of (ops f) (poly a.now)) ∷ [])) }
    ensures second { Is f v.new [] }
{
    let w = lead_inverse(f, a);
    monic_by(f, w, a, g);
    constant(f, w, u);
    *v = Poly::zero();
}

// g becomes the greatest common divisor of a and b; u and v become its factors: g is u·a + v·b. From those of b and
// the remainder of a by b, exchanged, with the quotient's multiple taken away. Where b is a constant other than 0,
// the remainder is 0, and nothing is taken away. What a and b hold is used up.
pub fn bezout(f: Field, a: &mut Poly, b: &mut Poly, g: &mut Poly, u: &mut Poly, v: &mut Poly)
    requires { Held f a.old × Held f b.old }
    ensures gcd { Is f g.new (bezout_of (ops f) (poly a.old) (poly b.old)).gcd }
    ensures first { Is f u.new (bezout_of (ops f) (poly a.old) (poly b.old)).u }
    ensures second { Is f v.new (bezout_of (ops f) (poly a.old) (poly b.old)).v }
{
    if b.size == 0 {
        bezout_zero(f, a, g, u, v);
    } else if b.size == 1 {
        bezout_zero(f, b, g, v, u);
    } else {
        let mut w = Poly::zero();
        divide(f, a, b, &mut w);
        bezout(f, b, a, g, v, u);
        subtract_product(f, v, &w, u);
    }
}

// g becomes the greatest common divisor of a and b; u its first factor. The second one, the longest product of all,
// is left out, and so is the first quotient. What a and b hold is used up.
pub fn first_factor(f: Field, a: &mut Poly, b: &mut Poly, g: &mut Poly, u: &mut Poly)
    requires { Held f a.old × Held f b.old }
    ensures gcd { Is f g.new (bezout_of (ops f) (poly a.old) (poly b.old)).gcd }
    ensures first { Is f u.new (bezout_of (ops f) (poly a.old) (poly b.old)).u }
{
    let mut v = Poly::zero();
    if b.size == 0 {
        bezout_zero(f, a, g, u, &mut v);
    } else {
        remainder(f, a, b);
        bezout(f, b, a, g, &mut v, u);
    }
}
