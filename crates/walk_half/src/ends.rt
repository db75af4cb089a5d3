// How half the walk ends: the outcome by the test that ended it.
ghost use Rattle.std.specs.Prelude.{◌≡◌};
ghost use Rattle.walk_half.specs.Outcome.{half_meaning, end_of, InRange};

use crate::HalfOutcome;
use base_counters::{Distance, Index};
use walk_middle::Stop;
use walk_stride::Progress;

// The outcome where the walk is at `at`, of index i, and Q has `size` places, by the test at i − 1 that ended it. By that of Q,
// R = 2·deg p_{i−1} − (g + 1) and m = 2i − 1; by that of P, R = 2·deg p_{i−1} − deg Q_i and m = 2i.
pub fn ending(top: usize, size: usize, at: Progress, by: Option<Stop>) -> HalfOutcome
    requires { InRange top size at by }
    ensures { half_meaning result ≡ end_of top size at by }
{
    let index = at.index;
    let degree = at.degree;
    match by {
        Some(Stop::ByQ) => HalfOutcome::Found(
            Distance(2 * degree.0 - (top as u64 - 1)),
            Index(2 * index.0 - 1),
        ),
        Some(Stop::ByP) => HalfOutcome::Found(
            Distance(2 * degree.0 - (size as u64 - 1)),
            Index(2 * index.0),
        ),
        // by the budget; None ends nothing
        _ => HalfOutcome::Spent(index, degree),
    }
}
