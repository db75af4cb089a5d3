// Half the walk: its outcome, how it ends, its steps to the middle, and the run.
#![tactic(auto)]

pub mod ends;
pub mod seek;

ghost use Rattle.std.specs.Prelude.{◌≡◌};
ghost use Rattle.spec_half.specs.Half.{half_of};
ghost use Rattle.base_surd.specs.Surd.{ticket_with};
ghost use Rattle.walk_half.specs.Outcome.{half_meaning};

use crate::seek::seek_middle;
use base_counters::{Budget, Distance, Index};
use base_refusals::Refusal;
use base_surd::Surd;
use walk_state::Walk;

// Found with R and m; spent with the indices tried and the degree reached; refused with its number.
#[derive(Clone, Copy)]
pub enum HalfOutcome {
    Found(Distance, Index),
    Spent(Index, Distance),
    Refused(u32),
}

impl From<Refusal> for HalfOutcome {
    ghost use Rattle.std.specs.Prelude.{◌≡◌};
    ghost use Rattle.spec_half.specs.Half.{half_refused};
    ghost use Rattle.base_refusals.specs.Number.{number_of};
    ghost use Rattle.walk_half.specs.Outcome.{half_meaning};

    ghost from_gives = { λ r x. half_meaning x ≡ half_refused (number_of r) };

    fn from(r: Refusal) -> HalfOutcome {
        HalfOutcome::Refused(r.into())
    }
}

// The outcome of half the walk of √D within the budget.
pub fn run_half(s: &Surd, budget: Budget) -> HalfOutcome
    ensures { half_meaning result ≡ half_of (ticket_with s.now budget.steps) }
{
    let mut inverses = [0u32; 4096];
    seek_middle(&Walk::new(s, &mut inverses), budget)
}
