// A multiple of one list added to another, place by place.
ghost use Rattle.std.specs.Prelude.{◌<◌, ◌≤◌, length};
ghost use Rattle.spec_arithmetic.specs.Polynomials.{add, mul};
ghost use Rattle.base_field.specs.Named.{name, ops};
ghost use Rattle.base_places.specs.Row.{Bounded};
ghost use Rattle.base_polynomial.specs.Whole.{Fits};
ghost use Rattle.unit_combine.specs.Written.{Written};
ghost use Rattle.unit_combine.specs.Sum.{Terms};

use base_field::Field;
use base_polynomial::Poly;

// The coefficient at k of a times the list, not reduced. 129 products of 4,095² are below 2³².
fn terms(f: Field, a: &Poly, from: &[u32], k: usize) -> u32
    requires k_lt_len { k < length from.now }
    requires fits { Fits f a.now }
    requires bounded { Bounded f.q from.now }
    ensures { Terms (name f) a.now.c from.now k result }
{
    let mut sum: u32 = 0;
    for i in 0..a.size.min(k + 1) {
        sum += a.c[i] * from[k - i];
    }
    sum
}

// `into` becomes a·from + into in the places that it has.
pub fn combine(f: Field, a: &Poly, from: &[u32], into: &mut [u32])
    requires fits { Fits f a.now }
    requires len_bound { length into.old ≤ length from.now }
    requires bounded { Bounded f.q from.now × Bounded f.q into.old }
    ensures { Written (add (ops f) (mul (ops f) a.now.c from.now) into.old) into.new }
{
    for k in 0..into.len() {
        into[k] = f.reduce(into[k] + terms(f, a, from, k));
    }
}
