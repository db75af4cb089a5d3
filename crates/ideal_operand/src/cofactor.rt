// D − P² divided by Q: the quotient alone, for which the places of P² from the leading one of Q on are enough.
ghost use Rattle.std.specs.Prelude.{◌<◌, ◌≤◌, get_or};
ghost use Rattle.spec_arithmetic.specs.Polynomials.{mul as mul_of};
ghost use Rattle.spec_laws.specs.Pairs.{cofactor_at};
ghost use Rattle.base_field.specs.Named.{ops};
ghost use Rattle.base_places.specs.Places.{Places};
ghost use Rattle.base_polynomial.specs.Whole.{poly, Fits, Held, Is};
ghost use Rattle.ideal_operand.specs.Upper.{upper};
ghost use Rattle.ideal_operand.specs.Operand.{held_pair};

use base_field::Field;
use base_ideal::Ideal;
use base_places::linear::top;
use base_places::product::dot;
use base_polynomial::Poly;
use base_polynomial::ring::lead_inverse;
use walk_step::step::quotient;

// z becomes p², with zeros before the place `from`.
fn upper_square(f: Field, p: &Poly, from: usize, z: &mut [u32; 129])
    requires { Fits f p.now × (p.now.size ≤ 64) }
    ensures { Places z.new (upper from (λ i. get_or (mul_of (ops f) p.now.c p.now.c) i 0)) }
{
    *z = [0u32; 129];
    let k = p.size;
    for i in from..(k + k).saturating_sub(1) {
        z[i] = dot(f, &p.c, &p.c, i, k, k);
    }
}

// z becomes (D − P²)/Q, where D is the radicand.
pub fn cofactor(f: Field, radicand: &Poly, x: &Ideal, z: &mut Poly)
    requires sizes { (0 < x.now.q.size) × (x.now.q.size ≤ radicand.now.size) × (radicand.now.size ≤ 128) × (x.now.p.size ≤ 64) }
    requires held { Held f radicand.now × Held f x.now.q × Held f x.now.p }
    ensures { Is f z.new (cofactor_at (ops f) (poly radicand.now) (held_pair x.now)) }
{
    let m = x.q.size;
    let mut square = [0u32; 129];
    upper_square(f, &x.p, m - 1, &mut square);
    let end = radicand.size.max((x.p.size + x.p.size).saturating_sub(1));
    let w = lead_inverse(f, &x.q);
    quotient(f, w, &radicand.c, &square, end, &x.q.c, m, &mut z.c);
    z.size = top(&z.c, end + 1 - m);
}
