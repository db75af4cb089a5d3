// How many values of a polynomial over the field are nonzero squares and non-squares.
#![tactic(auto)]

ghost use Rattle.std.specs.Prelude.{◌≡◌, ◌<◌};
ghost use Rattle.spec_estimate.specs.Estimate.{evaluate, square?, squares_of, non_squares_of};
ghost use Rattle.base_field.specs.Named.{name, ops, Ok};
ghost use Rattle.base_polynomial.specs.Whole.{poly, Held};
ghost use Rattle.estimate_counts.specs.Counts.{Counted};

use base_field::Field;
use base_polynomial::Poly;

// At how many elements the value is a nonzero square, and at how many a non-square. An element at which the value is
// 0 counts in neither.
#[derive(Clone, Copy)]
pub struct Counts {
    pub squares: u32,
    pub non_squares: u32,
}

// The value of the polynomial at x: from the top coefficient down, each plus x times what comes above it.
fn value_at(f: Field, d: &Poly, x: u32) -> u32
    requires { Held f d.now × Ok f x }
    ensures { result ≡ evaluate (ops f) (poly d.now) x }
{
    let mut value: u32 = 0;
    for i in (0..d.size).rev() {
        value = f.add(d.c[i], f.mul(x, value));
    }
    value
}

// Whether some z other than 0 has z² = v.
fn is_square(f: Field, v: u32) -> bool
    ensures { result ≡ square? (name f) v }
{
    (1..f.q).any(|z| f.mul(z, z) == v)
}

// The counts with one element more, whose value is v.
fn counted(f: Field, before: Counts, v: u32) -> Counts
    requires { Ok f v × (before.squares < f.q) × (before.non_squares < f.q) }
    ensures { Counted (name f) v before result }
{
    if v == 0 {
        before
    } else if is_square(f, v) {
        Counts {
            squares: before.squares + 1,
            ..before
        }
    } else {
        Counts {
            non_squares: before.non_squares + 1,
            ..before
        }
    }
}

// Those of all q elements.
pub fn count_values(f: Field, d: &Poly) -> Counts
    requires { Held f d.now }
    ensures { (result.squares ≡ squares_of (name f) (poly d.now)) × (result.non_squares ≡ non_squares_of (name f) (poly d.now)) }
{
    let mut counts = Counts {
        squares: 0,
        non_squares: 0,
    };
    for x in 0..f.q {
        counts = counted(f, counts, value_at(f, d, x));
    }
    counts
}
