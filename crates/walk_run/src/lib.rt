// The run of the walk: what it starts from is prepared, then the steps to an outcome; and a walk that is found.
#![tactic(auto)]

ghost use Rattle.std.specs.Prelude.{◌≡◌, ◌+◌, suc, IfOk, IfErr};
ghost use Rattle.spec_definitions.specs.Answers.{outcome_of};
ghost use Rattle.base_surd.specs.Surd.{g, ticket_with};
ghost use Rattle.walk_outcome.specs.Outcome.{meaning};
ghost use Rattle.walk_run.specs.Found.{Found, NotFound};

use base_counters::{Budget, Distance, Index};
use base_surd::Surd;
use walk_outcome::Outcome;
use walk_seek::seek;
use walk_state::Walk;

// A walk that is found within a budget: the regulator r, the quasi-period m and the constant c.
#[derive(Clone, Copy)]
pub struct FoundWalk<'a> {
    pub walk: &'a Walk<'a>,
    pub budget: Budget,
    pub r: Distance,
    pub m: Index,
    pub c: u32,
    pub ghost found: { Found walk.now.root.surd budget.steps r.0 m.0 c },
}

impl FoundWalk<'_> {
    ghost use Rattle.std.specs.Prelude.{◌≡◌};
    ghost use Rattle.spec_definitions.specs.Answers.{found};
    ghost use Rattle.walk_outcome.specs.Outcome.{meaning};

    // The outcome that says what is found.
    pub fn outcome(&self) -> Outcome
        ensures { meaning result ≡ found self.now.r.0 self.now.m.0 self.now.c }
    {
        Outcome::Found(self.r, self.m, self.c)
    }
}

// The walk where it is found within the budget, and the outcome of any other.
pub fn search<'a>(w: &'a Walk<'a>, budget: Budget) -> Result<FoundWalk<'a>, Outcome>
    requires even { suc (g w.now.root.surd) + suc (g w.now.root.surd) ≡ w.now.root.surd.n }
    ensures walk { IfOk result (λ found. found.walk.now ≡ w.now) }
    ensures budget { IfOk result (λ found. found.budget ≡ budget) }
    ensures outcome { IfErr result (λ outcome. meaning outcome ≡ outcome_of (ticket_with w.now.root.surd budget.steps)) }
    ensures not_found { IfErr result (λ outcome. NotFound (meaning outcome)) }
{
    match seek(w, budget) {
        Outcome::Found(r, m, c) => Ok(FoundWalk {
            walk: w,
            budget,
            r,
            m,
            c,
        }),
        outcome => Err(outcome),
    }
}

// The outcome of the walk of √D within the budget.
pub fn run(s: &Surd, budget: Budget) -> Outcome
    ensures { meaning result ≡ outcome_of (ticket_with s.now budget.steps) }
{
    let mut inverses = [0u32; 4096];
    seek(&Walk::new(s, &mut inverses), budget)
}
