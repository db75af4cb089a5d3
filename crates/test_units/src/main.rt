// Runs the jobs of vectors/units.txt through `unit` and compares the answers and the four lists with the
// stored ones: p and s in the first two, zeros in the other two, later places kept. With any one of the four
// lists one place short the answer is 12 and all four are kept.
// The input is the number of jobs, then the jobs as the file has them. Prints a line for each job that
// differs, then the counts.
#![tactic(auto)]

ghost use Rattle.std.specs.Prelude.{◌<◌, ◌≤◌, All};

use base_refusals::Refusal;
use engine::unit::unit;
use std::io;
use std::io::Read;
use test_jobs::{Job, MARK, Numbers, read_numbers, read_words, run_jobs};

// The four lists of a call.
#[derive(Clone, Copy, PartialEq, Eq)]
struct Lists {
    p: [u32; 64],
    s: [u32; 64],
    x: [u32; 64],
    y: [u32; 64],
}

// Lists in which nothing is written.
const KEPT: Lists = Lists {
    p: [MARK; 64],
    s: [MARK; 64],
    x: [MARK; 64],
    y: [MARK; 64],
};

// Whether the call says these numbers and leaves these lists, where so many places of each list are lent.
fn leaves<P: Print>(
    job: &Job<'_, P>,
    lent: [usize; 4],
    want: Numbers,
    lists: &Lists,
) -> io::Result<bool>
    requires { All (λ places. places ≤ 64) lent }
{
    let mut room = KEPT;
    let [p, s, x, y] = lent;
    let answer = unit(
        job.ticket,
        &mut room.p[..p],
        &mut room.s[..s],
        &mut room.x[..x],
        &mut room.y[..y],
    );
    let said = Numbers::from(answer.outcome);
    job.report(said, said == want && room == *lists)
}

// The lists that a job has stored, with so many places written.
fn read_lists<R: Read>(input: &mut R, places: usize) -> io::Result<Lists>
    requires { places ≤ 64 }
{
    let mut lists = KEPT;
    read_words(input, &mut lists.p[..places])?;
    read_words(input, &mut lists.s[..places])?;
    lists.x[..places].fill(0);
    lists.y[..places].fill(0);
    Ok(lists)
}

// Whether the call is refused and keeps the lists where any one of them is a place short.
fn refuses<P: Print>(job: &Job<'_, P>, places: usize) -> io::Result<bool>
    requires { (0 < places) × (places ≤ 64) }
{
    let refused = Numbers::refused(u32::from(Refusal::UnitRoom));
    let mut agrees = true;
    for short in 0..4 {
        let mut lent = [places; 4];
        lent[short] -= 1;
        agrees &= leaves(job, lent, refused, &KEPT)?;
    }
    Ok(agrees)
}

// A job after its ticket: R + 1 places are written, of the 64 that a list has.
fn compare<P: Print, R: Read>(job: &Job<'_, P>, input: &mut R) -> io::Result<bool> {
    let want = read_numbers(input)?;
    let places = want.first.min(63) as usize + 1;
    let lists = read_lists(input, places)?;
    let written = leaves(job, [64; 4], want, &lists)?;
    Ok(refuses(job, places)? && written)
}

fn main(rt: HostRuntime) -> io::Result<()> {
    run_jobs(&rt, &mut rt.reader(), |job, input| compare(job, input))
}
