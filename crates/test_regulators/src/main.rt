// Runs the jobs of vectors/regulators.txt and vectors/long.txt through `regulator` and compares its answers
// with the stored ones.
// The input is the number of jobs, then the jobs as the files have them. Prints a line for each job that
// differs, then the counts.
#![tactic(auto)]

use engine::regulator;
use std::io;
use std::io::Read;
use test_jobs::{Job, Numbers, read_numbers, run_jobs};

// Whether the ticket's answer is the one that comes next in the input.
fn compare<P: Print, R: Read>(job: &Job<'_, P>, input: &mut R) -> io::Result<bool> {
    let want = read_numbers(input)?;
    let answer = regulator(job.ticket);
    let said = Numbers::from(answer.outcome);
    let whole = answer.words == job.ticket.len() as u64;
    job.report(said, whole && said == want)
}

fn main(rt: HostRuntime) -> io::Result<()> {
    run_jobs(&rt, &mut rt.reader(), |job, input| compare(job, input))
}
