// Runs the jobs of vectors/listings.txt through `listing` and compares the answers and the lists with the
// stored ones; a list one word short is refused by 13 and kept; `lookup` gives the stored record at each
// distance, one below and one above it and far beyond, and refuses wrong lists.
// The input is the number of jobs; a job is as in the file, then the number of its lookups, each of six
// words: how many words of the listing are lent, n, the distance's high and low 32 bits, and the place and
// the size of the part that is to come.
// Prints a line for each job that differs, then the counts.
#![tactic(auto)]

ghost use Rattle.std.specs.Prelude.{◌≤◌};

use base_counters::Distance;
use base_refusals::Refusal;
use call_lookup::lookup;
use engine::listing::listing;
use std::io;
use std::io::Read;
use test_jobs::{
    Job, MARK, Numbers, read_count, read_list, read_numbers, read_wide, read_word, run_jobs,
};

// The list of a call.
type List = [u32; 512];

// A list in which nothing is written.
const KEPT: List = [MARK; 512];

// Whether the call says these numbers and leaves this list, where so many words of it are lent.
fn leaves<P: Print>(job: &Job<'_, P>, lent: usize, want: Numbers, list: &List) -> io::Result<bool>
    requires { lent ≤ 512 }
{
    let mut room = KEPT;
    let answer = listing(job.ticket, &mut room[..lent]);
    let said = Numbers::from(answer.outcome);
    job.report(said, said == want && room == *list)
}

// Whether the call is refused and keeps the list where it is a word short; no list is short of no words.
fn refuses<P: Print>(job: &Job<'_, P>, size: usize) -> io::Result<bool>
    requires { size ≤ 512 }
{
    if size == 0 {
        return Ok(true);
    }
    let refused = Numbers::refused(u32::from(Refusal::ListingRoom));
    leaves(job, size - 1, refused, &KEPT)
}

// Whether the record at the distance that comes next in the input is the part of the list that comes after it.
fn finds<R: Read>(input: &mut R, list: &[u32]) -> io::Result<bool> {
    let count = read_count(input, list.len())?;
    let lent = &list[..count];
    let n = u64::from(read_word(input)?);
    let distance = Distance(read_wide(input)?);
    let place = read_word(input)? as usize;
    let size = read_word(input)? as usize;
    Ok(lent.get(place..place + size) == Some(lookup(lent, n, distance)))
}

// Every lookup of a job. The line of one that differs has the number 8.
fn looks_up<P: Print, R: Read>(job: &Job<'_, P>, input: &mut R, list: &[u32]) -> io::Result<bool> {
    let mut agrees = true;
    for _ in 0..read_word(input)? {
        agrees &= finds(input, list)?;
    }
    job.report(Numbers::refused(8), agrees)
}

// A job after its ticket.
fn compare<P: Print, R: Read>(job: &Job<'_, P>, input: &mut R) -> io::Result<bool> {
    let want = read_numbers(input)?;
    let mut list = KEPT;
    let size = read_list(input, &mut list)?.len();
    let written = leaves(job, 512, want, &list)?;
    let refused = refuses(job, size)?;
    Ok(looks_up(job, input, &list)? && written && refused)
}

fn main(rt: HostRuntime) -> io::Result<()> {
    run_jobs(&rt, &mut rt.reader(), |job, input| compare(job, input))
}
