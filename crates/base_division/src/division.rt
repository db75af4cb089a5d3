// Division in place, with one reduction a coefficient.
ghost use Rattle.std.specs.Prelude.{◌<◌};
ghost use Rattle.spec_arithmetic.specs.Polynomials.{quo as quo_of, rem as rem_of};
ghost use Rattle.base_field.specs.Named.{ops};
ghost use Rattle.base_polynomial.specs.Whole.{poly, Held, Is};

use crate::difference::{rest_at, subtract_product};
use base_field::Field;
use base_polynomial::Poly;

// z becomes the quotient of a by b, which is not 0: its coefficients from the top one down, each of which clears
// a − z·b at its top place.
pub fn quotient(f: Field, a: &Poly, b: &Poly, z: &mut Poly)
    requires { Held f a.now × Held f b.now × (0 < b.now.size) }
    ensures { Is f z.new (quo_of (ops f) (poly a.now) (poly b.now)) }
{
    *z = Poly::zero();
    z.size = (a.size + 1).saturating_sub(b.size);
    let lead_inverse = f.inverse(b.c[b.size - 1]);
    for k in (0..z.size).rev() {
        let i = k + b.size - 1;
        let rest = rest_at(f, a.c[i], z, b, i);
        z.c[k] = f.reduce(rest * lead_inverse);
    }
}

// a becomes the remainder by b, which is not 0, and z the quotient. A dividend with fewer places than the divisor
// is the remainder itself.
pub fn divide(f: Field, a: &mut Poly, b: &Poly, z: &mut Poly)
    requires { Held f a.old × Held f b.now × (0 < b.now.size) }
    ensures remainder { Is f a.new (rem_of (ops f) (poly a.old) (poly b.now)) }
    ensures quotient { Is f z.new (quo_of (ops f) (poly a.old) (poly b.now)) }
{
    if a.size < b.size {
        *z = Poly::zero();
    } else {
        quotient(f, a, b, z);
        subtract_product(f, a, z, b);
    }
}

// a becomes the remainder by b, which is not 0.
pub fn remainder(f: Field, a: &mut Poly, b: &Poly)
    requires { Held f a.old × Held f b.now × (0 < b.now.size) }
    ensures { Is f a.new (rem_of (ops f) (poly a.old) (poly b.now)) }
{
    let mut z = Poly::zero();
    divide(f, a, b, &mut z);
}
