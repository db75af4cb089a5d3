// An answer as plain numbers, laid out as C lays them out: an outcome with the number of words, and the
// place of a part of a list.
#![tactic(auto)]

ghost use Rattle.std.specs.Prelude.{◌≡◌, ◌-◌, MatchOption};
ghost use Rattle.out_numbers.specs.AsNumbers.{AsNumbers};

use base_answers::Answer;
use std::ops::Range;
use walk_outcome::Outcome;

// The number of words handed in, the paper's number of the outcome and its values: found 0, R, m, c; spent
// 11, k, e, 0; refused j, 0, 0, 0.
#[repr(C)]
#[derive(Clone, Copy)]
pub struct Numbers {
    pub words: u64,
    pub number: u64,
    pub first: u64,
    pub second: u64,
    pub third: u64,
}

// A part of a list: how many words stand before it, and how many it has.
#[repr(C)]
#[derive(Clone, Copy)]
pub struct Part {
    pub offset: u64,
    pub length: u64,
}

impl From<Answer<Outcome>> for Numbers {
    ghost from_gives = { AsNumbers };

    #[tactic(auto, unfolding(spec_definitions::specs::Answers::said))]
    fn from(a: Answer<Outcome>) -> Numbers {
        let (number, first, second, third) = match a.outcome {
            Outcome::Found(r, m, c) => (0, r.0, m.0, c as u64),
            Outcome::Spent(k, e) => (11, k.0, e.0, 0),
            Outcome::Refused(j) => (j as u64, 0, 0, 0),
        };
        Numbers {
            words: a.words,
            number,
            first,
            second,
            third,
        }
    }
}

// Where a part stands, as numbers; where there is none, the empty part at the start.
impl From<Option<Range<usize>>> for Part {
    ghost from_gives = { λ place part. MatchOption place ((part.offset ≡ 0) × (part.length ≡ 0)) (λ range. (part.offset ≡ range.start) × (part.length ≡ range.end - range.start)) };

    fn from(place: Option<Range<usize>>) -> Part {
        let range = place.unwrap_or(0..0);
        Part {
            offset: range.start as u64,
            length: range.len() as u64,
        }
    }
}
