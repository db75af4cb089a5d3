// Sums, differences, products and monic polynomials. Each fills a polynomial that is lent, so that none is copied.
ghost use Rattle.std.specs.Prelude.{◌≡◌, ◌+◌, ◌≤◌};
ghost use Rattle.spec_arithmetic.specs.Polynomials.{add as add_of, sub as sub_of, mul as mul_of, lead as lead_of, monic as monic_of};
ghost use Rattle.base_field.specs.Named.{ops};
ghost use Rattle.base_polynomial.specs.Whole.{poly, Held, Is};

use crate::Poly;
use base_field::Field;
use base_places::linear::{add_places, scale_places, sub_places, top};
use base_places::product::mul_places;

// z becomes x + y.
pub fn add(f: Field, x: &Poly, y: &Poly, z: &mut Poly)
    requires { Held f x.now × Held f y.now }
    ensures { Is f z.new (add_of (ops f) (poly x.now) (poly y.now)) }
{
    let n = x.size.max(y.size);
    add_places(f, &x.c, &y.c, n, &mut z.c);
    z.size = top(&z.c, n);
}

// z becomes x − y.
pub fn subtract(f: Field, x: &Poly, y: &Poly, z: &mut Poly)
    requires { Held f x.now × Held f y.now }
    ensures { Is f z.new (sub_of (ops f) (poly x.now) (poly y.now)) }
{
    let n = x.size.max(y.size);
    sub_places(f, &x.c, &y.c, n, &mut z.c);
    z.size = top(&z.c, n);
}

// z becomes x·y.
pub fn multiply(f: Field, x: &Poly, y: &Poly, z: &mut Poly)
    requires fits { x.now.size + y.now.size ≤ 130 }
    requires held { Held f x.now × Held f y.now }
    ensures { Is f z.new (mul_of (ops f) (poly x.now) (poly y.now)) }
{
    mul_places(f, &x.c, &y.c, x.size, y.size, &mut z.c);
    z.size = top(&z.c, (x.size + y.size).saturating_sub(1));
}

// The inverse of the leading coefficient of a; 0 for the zero polynomial.
pub fn lead_inverse(f: Field, a: &Poly) -> u32
    requires { Held f a.now }
    ensures { result ≡ (ops f).inv (lead_of (ops f) (poly a.now)) }
{
    f.inverse(a.lead())
}

// g becomes a over its leading coefficient, whose inverse is w.
pub fn monic_by(f: Field, w: u32, a: &Poly, g: &mut Poly)
    requires { Held f a.now × (w ≡ (ops f).inv (lead_of (ops f) (poly a.now))) }
    ensures { Is f g.new (monic_of (ops f) (poly a.now)) }
{
    scale_places(f, w, &a.c, a.size, &mut g.c);
    g.size = top(&g.c, a.size);
}

// g becomes a over its leading coefficient.
pub fn monic(f: Field, a: &Poly, g: &mut Poly)
    requires { Held f a.now }
    ensures { Is f g.new (monic_of (ops f) (poly a.now)) }
{
    let w = lead_inverse(f, a);
    monic_by(f, w, a, g);
}
