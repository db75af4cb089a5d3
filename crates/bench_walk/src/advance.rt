// A run of a given number of steps with the product of 2/lc Q_j, past every constant Q: for measuring the time of a
// step.
ghost use Rattle.std.specs.Prelude.{◌≡◌};
ghost use Rattle.bench_walk.specs.Steps.{degree_at, product_at};

use base_counters::Budget;
use base_polynomial::Poly;
use base_surd::Surd;
use walk_lead::times_factor;
use walk_state::Walk;
use walk_stride::{begin_walk, stride_on};

// The degree reached, and the product of 2/lc Q_j.
#[repr(C)]
#[derive(Clone, Copy, Default)]
pub struct Made {
    pub degree: u64,
    pub product: u64,
}

// So many steps, past every constant Q. The arrays take turns, and the product is kept, as in a run.
fn advance(w: &Walk, steps: Budget) -> Made
    ensures degree { result.degree ≡ degree_at w.now.root.surd steps.steps }
    ensures product { result.product ≡ product_at w.now.root.surd steps.steps }
{
    let mut a = Poly::zero();
    let mut b = Poly::zero();
    let mut c = Poly::zero();
    let mut x = [0u32; 129];
    let mut y = [0u32; 129];
    let mut z = [0u32; 129];
    let mut at = begin_walk(w, &mut a, &mut b, &mut x);
    let q = w.root.surd.field.q as u64;
    let mut twice_lead: u64 = 1;
    loop {
        if at.index.0 == steps.steps {
            break;
        }
        twice_lead = times_factor(twice_lead, w.inverses, &b);
        at = stride_on(w, &a, &b, &x, &mut y, &mut c, at);
        if at.index.0 == steps.steps {
            break;
        }
        twice_lead = times_factor(twice_lead, w.inverses, &c);
        at = stride_on(w, &b, &c, &y, &mut z, &mut a, at);
        if at.index.0 == steps.steps {
            break;
        }
        twice_lead = times_factor(twice_lead, w.inverses, &a) % q;
        at = stride_on(w, &c, &a, &z, &mut x, &mut b, at);
    }
    Made {
        degree: at.degree.0,
        product: twice_lead % q,
    }
}

// What so many steps reach, whether a Q is constant or not.
pub fn run_on(s: &Surd, steps: Budget) -> Made
    ensures degree { result.degree ≡ degree_at s.now steps.steps }
    ensures product { result.product ≡ product_at s.now steps.steps }
{
    let mut inverses = [0u32; 4096];
    advance(&Walk::new(s, &mut inverses), steps)
}
