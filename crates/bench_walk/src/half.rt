// A run of a given number of steps, each followed by the tests of half the walk at the index before, past every
// middle: for measuring the time of a step with the tests.
ghost use Rattle.std.specs.Prelude.{◌≡◌, ◌≤◌};
ghost use Rattle.walk_middle.specs.Middle.{Tested};
ghost use Rattle.bench_walk.specs.Steps.{degree_at};

use crate::BUDGETS;
use base_counters::Budget;
use base_polynomial::Poly;
use base_surd::Surd;
use walk_middle::stops;
use walk_state::Walk;
use walk_stride::{Progress, begin_walk, stride_on};

// The degree reached, and how often the tests said that half the walk stops: of this count only a bound is
// proved.
#[repr(C)]
#[derive(Clone, Copy, Default)]
pub struct Tried {
    pub degree: u64,
    pub stops: u64,
}

// 1 where the tests say that half the walk stops: they are counted so that the compiler can't leave them out.
fn stopped(
    w: &Walk,
    before: &Poly,
    current: &Poly,
    rest: &[u32; 129],
    remains: &[u32; 129],
    at: Progress,
) -> u64
    requires { Tested w.now before.now current.now rest.now remains.now }
    ensures { result ≤ 1 }
{
    // no index reaches this budget
    u64::from(stops(w, BUDGETS, before, current, rest, remains, at).is_some())
}

// The degree of p_{steps − 1}: so many steps, each followed by the tests, past every middle. The arrays and the counts
// take turns as in half the walk.
fn try_on(w: &Walk, steps: Budget) -> Tried
    ensures degree { result.degree ≡ degree_at w.now.root.surd steps.steps }
    ensures few { result.stops ≤ steps.steps }
{
    let mut a = Poly::zero();
    let mut b = Poly::zero();
    let mut c = Poly::zero();
    let mut x = [0u32; 129];
    let mut y = [0u32; 129];
    let mut z = [0u32; 129];
    let mut at = begin_walk(w, &mut a, &mut b, &mut x);
    let mut counted: u64 = 0;
    let degree = loop {
        if at.index.0 == steps.steps {
            break at.degree;
        }
        let second = stride_on(w, &a, &b, &x, &mut y, &mut c, at);
        counted += stopped(w, &a, &b, &x, &y, at); // Q in b
        if second.index.0 == steps.steps {
            break second.degree;
        }
        let third = stride_on(w, &b, &c, &y, &mut z, &mut a, second);
        counted += stopped(w, &b, &c, &y, &z, second); // Q in c
        if third.index.0 == steps.steps {
            break third.degree;
        }
        at = stride_on(w, &c, &a, &z, &mut x, &mut b, third);
        counted += stopped(w, &c, &a, &z, &x, third); // Q in a
    };
    Tried {
        degree: degree.0,
        stops: counted,
    }
}

// The degree that so many steps reach, whether the tests say that half the walk stops or not.
pub fn half_on(s: &Surd, steps: Budget) -> Tried
    ensures degree { result.degree ≡ degree_at s.now steps.steps }
    ensures few { result.stops ≤ steps.steps }
{
    let mut inverses = [0u32; 4096];
    try_on(&Walk::new(s, &mut inverses), steps)
}
