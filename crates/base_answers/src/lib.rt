// What the calls answer.
#![tactic(auto)]

use base_refusals::Refusal;

// What a call answers: the number of words handed in, and what it says of them.
#[derive(Clone, Copy)]
pub struct Answer<T> {
    pub words: u64,
    pub outcome: T,
}

impl<T: Copy> Answer<Result<T, Refusal>> {
    ghost use Rattle.std.specs.Prelude.{◌≡◌, IfOk, IfErr};
    ghost use Rattle.base_refusals.specs.Number.{refused_by};

    // The number of the refusal and `zero`; where nothing is refused, 0 and the value.
    pub fn numbered(self, zero: T) -> (u32, T)
        ensures number { result.0 ≡ refused_by self.outcome }
        ensures value { IfOk self.outcome (λ t. result.1 ≡ t) }
        ensures zero { IfErr self.outcome (λ _. result.1 ≡ zero) }
    {
        match self.outcome {
            Ok(value) => (0, value),
            Err(refusal) => (refusal.into(), zero),
        }
    }
}
