// What the program prints, as a text or as bytes in a lent buffer: the first line of the answer, and after
// "found" one line a record.
#![tactic(auto)]

ghost use Rattle.std.specs.Prelude.{◌≡◌, ◌<◌, [], ◌++◌, length, take, drop, replicate};
ghost use Rattle.spec_definitions.specs.Ticket.{ticket_of};
ghost use Rattle.spec_definitions.specs.Listing.{listing_answer};
ghost use Rattle.spec_definitions.specs.Program.{words_of, read_bytes, answer_lines, program_of};
ghost use Rattle.out_program.specs.FirstLine.{LeastPrinted};

use base_refusals::Refusal;
use base_words::value;
use call_listing::listing;
use out_answer::{push_first, push_records};
use out_reading::{has_cut_word, words_of};
use out_text::Text;
use walk_outcome::Outcome;

// The degree n of a ticket.
#[tactic(auto, unfolding(spec_definitions::specs::Ticket::ticket_of))]
fn degree(ticket: &[u32]) -> usize
    requires { 1 < length ticket.now }
    ensures { result ≡ (ticket_of ticket.now).n }
{
    value(ticket[1]) as usize
}

// The lines of the answer to a ticket.
fn push_answer(text: &mut Text, ticket: &[u32])
    requires { text.old ≡ [] }
    ensures { text.new ≡ answer_lines (ticket_of ticket.now).n (listing_answer ticket.now (replicate 8192 0)) }
{
    let mut list = [0u32; 8192];
    let outcome = listing(ticket, &mut list).outcome;
    push_first(text, outcome);
    let Outcome::Found(_, m, _) = outcome else {
        return;
    };
    push_records(text, &list, degree(ticket), m.0 as usize);
}

// All that the program prints for an input, in place of what the text had.
pub fn write_output(input: &[u8], text: &mut Text)
    ensures prints { text.new ≡ program_of input.now }
    ensures least { LeastPrinted (words_of (read_bytes input.now)) text.new }
{
    text.clear();
    if has_cut_word(input) {
        return push_first(text, Refusal::Head.into());
    }
    let mut words = [0u32; 70];
    push_answer(text, words_of(input, &mut words));
}

// All that the program prints for an input, at the front of a buffer that has room for every answer, and its
// length; what stands after it is kept.
pub fn output(input: &[u8], out: &mut [u8; 98304]) -> usize
    ensures size { result ≡ length (program_of input.now) }
    ensures prints { out.new ≡ program_of input.now ++ drop result out.old }
    ensures least { LeastPrinted (words_of (read_bytes input.now)) (take result out.new) }
{
    let mut text = Text::new();
    write_output(input, &mut text);
    let printed = text.as_bytes();
    out[..printed.len()].copy_from_slice(printed);
    printed.len()
}
