// The passes of a step where the quotient is a0 + a1·x + a2·x², of degree DEGREE, 1 or 2: where it is 1, a2 is 0 and its
// products are left out. Each pass keeps the factors at the two places before. q − a stands for −a, so that no sum
// goes below 0.
ghost use Rattle.std.specs.Prelude.{◌≡◌, ◌+◌, ◌*◌, ◌-◌, ◌%◌, ◌<◌, ◌≤◌, get_or};
ghost use Rattle.base_field.specs.Named.{Ok, name};
ghost use Rattle.base_places.specs.Places.{Places};
ghost use Rattle.walk_short.specs.Step.{Quadratic};
ghost use Rattle.walk_short.specs.Start.{rem, after as after_of};

use crate::Step;
use base_field::Field;

// One coefficient of the remainder: x is that of Q, y and z the two before.
fn rest_of<const DEGREE: usize>(
    f: Field,
    twice: u32,
    rest: u32,
    a0: u32,
    a1: u32,
    a2: u32,
    x: u32,
    y: u32,
    z: u32,
) -> u32
    requires degree { ¬ (DEGREE ≡ 2) → a2 ≡ 0 }
    requires ok { Ok f twice × Ok f rest × Ok f a0 × Ok f a1 × Ok f a2 × Ok f x × Ok f y × Ok f z }
    ensures { result ≡ (twice + (f.q - rest) + (f.q - a0) * x + (f.q - a1) * y + (f.q - a2) * z) % f.q }
{
    let q = f.q;
    let sum = twice + (q - rest) + (q - a0) * x + (q - a1) * y;
    f.reduce(if DEGREE == 2 { sum + (q - a2) * z } else { sum })
}

// One coefficient of the next Q: x is that of the next remainder less the remainder, y and z the two before.
fn next_of<const DEGREE: usize>(
    f: Field,
    before: u32,
    a0: u32,
    a1: u32,
    a2: u32,
    x: u32,
    y: u32,
    z: u32,
) -> u32
    requires degree { ¬ (DEGREE ≡ 2) → a2 ≡ 0 }
    requires ok { Ok f before × Ok f a0 × Ok f a1 × Ok f a2 × (x ≤ 8190) × (y ≤ 8190) × (z ≤ 8190) }
    ensures { result ≡ (before + a0 * x + a1 * y + a2 * z) % f.q }
{
    let sum = before + a0 * x + a1 * y;
    f.reduce(if DEGREE == 2 { sum + a2 * z } else { sum })
}

// remains becomes the remainder of twice − rest by Q, whose quotient is a0 + a1·x + a2·x².
pub fn remainder<const DEGREE: usize>(s: &Step, a0: u32, a1: u32, a2: u32, remains: &mut [u32; 129])
    requires degree { (DEGREE ≤ 2) × (¬ (DEGREE ≡ 2) → a2 ≡ 0) }
    requires size { s.now.top ≡ s.now.size + DEGREE }
    requires quadratic { Quadratic (name s.now.field) s.now.twice.now s.now.current.now s.now.rest.now a0 a1 a2 }
    ensures { Places remains.new (λ i. get_or (rem s.now) i 0) }
{
    *remains = [0u32; 129];
    // By names of their own: through `s` each would be loaded anew at every place, and no four places done at once.
    let (f, twice, rest, current) = (s.field, s.twice, s.rest, s.current);
    let mut y: u32 = 0;
    let mut z: u32 = 0;
    for k in 0..s.size - 1 {
        let x = current[k];
        remains[k] = rest_of::<DEGREE>(f, twice[k], rest[k], a0, a1, a2, x, y, z);
        z = y;
        y = x;
    }
}

// after becomes before + (a0 + a1·x + a2·x²)·(remains − rest), of `top` coefficients at most.
pub fn next<const DEGREE: usize>(
    s: &Step,
    a0: u32,
    a1: u32,
    a2: u32,
    remains: &[u32; 129],
    after: &mut [u32; 129],
)
    requires degree { (DEGREE ≤ 2) × (¬ (DEGREE ≡ 2) → a2 ≡ 0) }
    requires size { s.now.top ≡ s.now.size + DEGREE }
    requires quadratic { Quadratic (name s.now.field) s.now.twice.now s.now.current.now s.now.rest.now a0 a1 a2 }
    requires places { Places remains.now (λ i. get_or (rem s.now) i 0) }
    ensures { Places after.new (λ i. get_or (after_of s.now) i 0) }
{
    *after = [0u32; 129];
    // By names of their own, as above.
    let (f, before, rest) = (s.field, s.before, s.rest);
    let q = f.q;
    let mut y = q;
    let mut z = q;
    for k in 0..s.size + DEGREE {
        let x = remains[k] + (q - rest[k]);
        after[k] = next_of::<DEGREE>(f, before[k], a0, a1, a2, x, y, z);
        z = y;
        y = x;
    }
}
