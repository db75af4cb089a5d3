// The outcome of a ticket's walk.
#![tactic(auto)]

use base_counters::{Distance, Index};
use base_refusals::Refusal;

// Found with R, m and c; spent with the steps made and the degree reached; refused with its number.
#[derive(Clone, Copy)]
pub enum Outcome {
    Found(Distance, Index, u32),
    Spent(Index, Distance),
    Refused(u32),
}

impl From<Refusal> for Outcome {
    ghost use Rattle.std.specs.Prelude.{◌≡◌};
    ghost use Rattle.spec_definitions.specs.Answers.{refused};
    ghost use Rattle.base_refusals.specs.Number.{number_of};
    ghost use Rattle.walk_outcome.specs.Outcome.{meaning};

    ghost from_gives = { λ r x. meaning x ≡ refused (number_of r) };

    fn from(r: Refusal) -> Outcome {
        Outcome::Refused(r.into())
    }
}
