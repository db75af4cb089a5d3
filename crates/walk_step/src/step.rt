// One step of the walk by the recurrences (2-7) of source 000. With twice = 2d and rest the remainder of the
// step before, the dividend P + d is twice − rest; its quotient by Q is a, its remainder the next rest, and
// the next Q is the Q before and a·(next rest − rest): one division and one short product. Arrays of 129
// places by reference, loops to the sizes that the caller keeps, one reduction a coefficient. Q stands in
// `current`, since `now` is a word of the contracts.
ghost use Rattle.std.specs.Prelude.{◌≡◌, ℕ, ◌+◌, ◌-◌, ◌<◌, ◌≤◌, get_or};
ghost use Rattle.spec_arithmetic.specs.Polynomials.{add, sub, mul};
ghost use Rattle.base_field.specs.Named.{name, ops};
ghost use Rattle.base_places.specs.Places.{Places, Within};
ghost use Rattle.base_places.specs.Row.{Bounded};
ghost use Rattle.walk_short.specs.Start.{quo, rem, after as after_of, Leads, SteppedFrom};
ghost use Rattle.walk_step.specs.Step.{step_quo, Division};

use base_field::Field;
use base_places::linear::fill_places;
use walk_short::Step;
use walk_short::linear::linear;
use walk_short::quadratic::quadratic;

// The coefficient at k of twice − rest − x·Q, where x has l places and zeros before `from`. q − a stands for
// −a, so that no sum goes below 0; 128 products of 4,095² are below 2³¹.
fn rest_at(
    f: Field,
    twice: &[u32; 129],
    rest: &[u32; 129],
    x: &[u32; 129],
    from: usize,
    l: usize,
    current: &[u32; 129],
    k: usize,
) -> u32
    requires k_bound { (k < 128) × (from ≤ k + 1) }
    requires bounded { Bounded f.q twice.now × Bounded f.q rest.now × Bounded f.q current.now }
    requires within { Within (name f) x.now l × ((i : ℕ) → i < from → get_or x.now i 0 ≡ 0) }
    ensures { result ≡ get_or (sub (ops f) (sub (ops f) twice.now rest.now) (mul (ops f) x.now current.now)) k 0 }
{
    let q = f.q;
    let end = (k + 1).min(l);
    let mut t = twice[k] + (q - rest[k]);
    for i in from..end {
        t += (q - x[i]) * current[k - i];
    }
    f.reduce(t)
}

// The coefficient at k of before + a·(remains − rest), where a has l places. 128 products of 4,095·8,190 are
// below 2³².
fn next_at(s: &Step, a: &[u32; 129], l: usize, remains: &[u32; 129], k: usize) -> u32
    requires k_bound { k < 128 }
    requires within { Within (name s.now.field) a.now l × Bounded s.now.field.q remains.now }
    ensures { result ≡ get_or (add (ops s.now.field) s.now.before.now (mul (ops s.now.field) a.now (sub (ops s.now.field) remains.now s.now.rest.now))) k 0 }
{
    let (q, rest) = (s.field.q, s.rest);
    let end = (k + 1).min(l);
    let mut t = s.before[k];
    for i in 0..end {
        t += a[i] * (remains[k - i] + (q - rest[k - i]));
    }
    s.field.reduce(t)
}

// a becomes the quotient of twice − rest by Q, whose leading coefficient has the inverse lead_inverse: from
// the top coefficient down, each clears what is left at its top place.
pub fn quotient(
    f: Field,
    lead_inverse: u32,
    twice: &[u32; 129],
    rest: &[u32; 129],
    top: usize,
    current: &[u32; 129],
    size: usize,
    a: &mut [u32; 129],
)
    requires lead_inverse_value { lead_inverse ≡ (ops f).inv (get_or current.now (size - 1) 0) }
    requires size_nonzero { (0 < size) × (size ≤ top) × (top ≤ 128) }
    requires division { Division (name f) top size twice.now current.now rest.now }
    ensures { Places a.new (λ i. get_or (step_quo (name f) twice.now current.now rest.now) i 0) }
{
    *a = [0u32; 129];
    let l = top + 1 - size;
    for k in (0..l).rev() {
        let v = rest_at(f, twice, rest, a, k + 1, l, current, k + size - 1);
        a[k] = f.reduce(v * lead_inverse);
    }
}

// remains becomes the remainder of twice − rest by Q, whose quotient is a.
fn remainder(s: &Step, a: &[u32; 129], remains: &mut [u32; 129])
    requires { Places a.now (λ i. get_or (quo s.now) i 0) }
    ensures { Places remains.new (λ i. get_or (rem s.now) i 0) }
{
    let l = s.top + 1 - s.size;
    fill_places(
        s.size - 1,
        |k| rest_at(s.field, s.twice, s.rest, a, 0, l, s.current, k),
        remains,
    );
}

// after becomes before + a·(remains − rest), of top coefficients at most.
fn next(s: &Step, a: &[u32; 129], remains: &[u32; 129], after: &mut [u32; 129])
    requires quotient { Places a.now (λ i. get_or (quo s.now) i 0) }
    requires remainder { Places remains.now (λ i. get_or (rem s.now) i 0) }
    ensures { Places after.new (λ i. get_or (after_of s.now) i 0) }
{
    let l = s.top + 1 - s.size;
    fill_places(s.top, |k| next_at(s, a, l, remains, k), after);
}

// One step, for any quotient.
fn general(s: &Step, remains: &mut [u32; 129], after: &mut [u32; 129])
    ensures { Leads s.now remains.new after.new }
{
    let mut a = [0u32; 129];
    quotient(
        s.field,
        s.lead_inverse,
        s.twice,
        s.rest,
        s.top,
        s.current,
        s.size,
        &mut a,
    );
    remainder(s, &a, remains);
    next(s, &a, remains, after);
}

// One step, by a shorter way where the quotient has degree 1 or 2.
fn fill(s: &Step, remains: &mut [u32; 129], after: &mut [u32; 129])
    ensures { Leads s.now remains.new after.new }
{
    if s.top == s.size + 1 {
        linear(s, remains, after);
    } else if s.top == s.size + 2 {
        quadratic(s, remains, after);
    } else {
        general(s, remains, after);
    }
}

// One step: remains becomes the next remainder and after the next Q, whose size is returned.
pub fn step(s: &Step, remains: &mut [u32; 129], after: &mut [u32; 129]) -> usize
    ensures { SteppedFrom s.now remains.new after.new result }
{
    fill(s, remains, after);
    base_places::linear::top(after, s.top)
}
