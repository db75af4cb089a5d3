// The greatest common divisor by Euclid's rule, on two polynomials that take turns.
ghost use Rattle.spec_arithmetic.specs.Polynomials.{gcd as gcd_of};
ghost use Rattle.base_field.specs.Named.{ops};
ghost use Rattle.base_polynomial.specs.Whole.{poly, Held, Is};

use base_division::division::remainder;
use base_field::Field;
use base_polynomial::Poly;
use base_polynomial::ring::monic;

// g becomes the greatest common divisor of a and b. It is that of b and the remainder of a by b, a made monic
// where b is 0, and 1 where b is another constant. What a and b hold is used up.
pub fn gcd(f: Field, a: &mut Poly, b: &mut Poly, g: &mut Poly)
    requires { Held f a.old × Held f b.old }
    ensures { Is f g.new (gcd_of (ops f) (poly a.old) (poly b.old)) }
{
    if b.size == 0 {
        monic(f, a, g);
    } else if b.size == 1 {
        monic(f, b, g);
    } else {
        remainder(f, a, b);
        gcd(f, b, a, g);
    }
}
