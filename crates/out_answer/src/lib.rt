// The lines of an answer one after the other, put at the end of a text: the first line, and a line a record.
#![tactic(auto)]

ghost use Rattle.std.specs.Prelude.{◌≡◌, ◌++◌, ◌+◌, ◌*◌, ◌≤◌, length};
ghost use Rattle.spec_definitions.specs.Answers.{said};
ghost use Rattle.spec_definitions.specs.Program.{first_line, record_lines};
ghost use Rattle.spec_demands.specs.Numbered.{Numbered};
ghost use Rattle.walk_outcome.specs.Outcome.{meaning};

use out_lines::{push_line, push_record};
use out_text::{ROOM, Text};
use walk_outcome::Outcome;

// The lines of the first records of a listing, at most ten bytes for each of their words.
pub fn push_records(text: &mut Text, list: &[u32], n: usize, count: usize)
    requires degree { (2 ≤ n) × (n ≤ 64) }
    requires whole { count * (n + 4) ≤ length list.now }
    requires room { length text.old + 10 * (count * (n + 4)) ≤ ROOM }
    ensures { text.new ≡ text.old ++ record_lines list.now n 0 count }
{
    for words in list[..count * (n + 4)].chunks_exact(n + 4) {
        push_record(text, words);
    }
}

// The first line of an answer.
pub fn push_first(text: &mut Text, outcome: Outcome)
    requires room { length text.old + 1024 ≤ ROOM }
    requires numbered { Numbered (meaning outcome) }
    ensures line { text.new ≡ text.old ++ first_line (said (meaning outcome)) }
    ensures upper_bound { length text.new ≤ length text.old + 1024 }
{
    match outcome {
        Outcome::Found(r, m, c) => push_line(text, b"found", &[r.0, m.0, c as u64]),
        Outcome::Spent(k, e) => push_line(text, b"spent", &[k.0, e.0]),
        Outcome::Refused(number) => push_line(text, b"refused", &[number as u64]),
    }
}
