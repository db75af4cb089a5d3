// The lines of an answer, each put at the end of a text.
#![tactic(auto)]

ghost use Rattle.std.specs.Prelude.{◌≡◌, ◌++◌, ◌+◌, ◌<◌, ◌≤◌, length};
ghost use Rattle.spec_definitions.specs.Text.{line};
ghost use Rattle.spec_definitions.specs.Program.{record_line};
ghost use Rattle.out_lines.specs.Lines.{joined_at, head_bytes};

use base_words::{joined, value};
use out_text::{ROOM, Text};

// The number in two words, high then low.
#[tactic(auto, unfolding(crate::specs::Lines::joined_at))]
fn joined_at(words: &[u32], at: usize) -> u64
    requires { at + 1 < length words.now }
    ensures { result ≡ joined_at words.now at }
{
    joined(value(words[at]), value(words[at + 1]))
}

// Index, distance and mirror of a record.
#[tactic(auto, unfolding(crate::specs::Lines::head_bytes))]
fn push_head(text: &mut Text, words: &[u32])
    requires long { 5 ≤ length words.now }
    requires room { length text.old + length (head_bytes words.now) ≤ ROOM }
    ensures { text.new ≡ text.old ++ head_bytes words.now }
{
    text.push_decimal(value(words[0]) as u64);
    text.push_number(joined_at(words, 1));
    text.push_number(joined_at(words, 3));
}

// The line of a record: index, distance, mirror, and the coefficients.
pub fn push_record(text: &mut Text, words: &[u32])
    requires long { 5 ≤ length words.now }
    requires room { length text.old + length (record_line words.now) ≤ ROOM }
    ensures { text.new ≡ text.old ++ record_line words.now }
{
    push_head(text, words);
    for &word in &words[5..] {
        text.push_number(value(word) as u64);
    }
    text.end_line();
}

// A word, numbers after spaces, and the end of the line.
#[tactic(auto, unfolding(spec_definitions::specs::Text::line, spec_definitions::specs::Text::spaced))]
pub fn push_line(text: &mut Text, word: &[u8], numbers: &[u64])
    requires { length text.old + length (line word.now numbers.now) ≤ ROOM }
    ensures { text.new ≡ text.old ++ line word.now numbers.now }
{
    text.push_bytes(word);
    for &number in numbers {
        text.push_number(number);
    }
    text.end_line();
}
