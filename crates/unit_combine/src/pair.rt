// The two last convergents in a pair of lists that take turns: how they start, and one step.
ghost use Rattle.std.specs.Prelude.{[], ◌∷◌, ◌<◌, ◌≡◌, length};
ghost use Rattle.base_field.specs.Named.{name};
ghost use Rattle.base_places.specs.Row.{Bounded};
ghost use Rattle.base_polynomial.specs.Whole.{Fits};
ghost use Rattle.unit_combine.specs.Pair.{Pair, Folded};

use crate::combine::combine;
use base_field::Field;
use base_polynomial::Poly;

// Zeros and 1: with t steps to go, 1 in the list of the last convergent.
pub fn start(t: u64, p: &mut [u32], x: &mut [u32])
    requires { (0 < length p.old) × (0 < length x.old) }
    ensures { Pair t (1 ∷ []) [] p.new x.new }
{
    p.fill(0);
    x.fill(0);
    if t % 2 == 0 {
        p[0] = 1;
    } else {
        x[0] = 1;
    }
}

// With `left` steps to go, a times the last convergent is added to the one before it.
pub fn fold(f: Field, a: &Poly, left: u64, p: &mut [u32], x: &mut [u32])
    requires fits { Fits f a.now }
    requires len { length p.old ≡ length x.old }
    requires bounded { Bounded f.q p.old × Bounded f.q x.old }
    ensures { Folded (name f) left a.now.c p.old x.old p.new x.new }
{
    if left % 2 == 0 {
        combine(f, a, p, x);
    } else {
        combine(f, a, x, p);
    }
}
