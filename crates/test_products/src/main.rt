// Runs the jobs of vectors/products.txt through `product` and `giant_step` and compares every number and
// every polynomial with the stored ones.
// The input is the number of jobs, then the jobs as the file has them. Prints a line for each job that
// differs, then the counts.
#![tactic(auto)]

ghost use Rattle.std.specs.Prelude.{◌≤◌, length, IfOk};

use base_counters::Distance;
use base_ideal::Ideal;
use base_polynomial::Poly;
use engine::Pair;
use engine::giant_step::{GiantStep, Shift, giant_step};
use engine::product::{IdealProduct, product};
use std::io;
use std::io::Read;
use test_jobs::{Job, Numbers, read_list, read_wide, read_word, run_jobs};

// The largest distance of an answer: 2⁴¹.
const MOST: u64 = 2199023255552;

// An ideal of a job with its distance.
#[derive(Clone, Copy)]
struct Operand<'a> {
    pair: Pair<'a>,
    distance: Distance,
}

// The ideal that comes next in the input, read into the room that is lent.
fn read_operand<'a, R: Read>(
    input: &mut R,
    q: &'a mut [u32],
    p: &'a mut [u32],
) -> io::Result<Operand<'a>>
    ensures { IfOk result (λ o. (length o.pair.q.now ≤ length q.old) × (length o.pair.p.now ≤ length p.old)) }
{
    let q = read_list(input, q)?;
    let p = read_list(input, p)?;
    let distance = Distance(read_wide(input)?);
    Ok(Operand {
        pair: Pair { q, p },
        distance,
    })
}

// Whether the polynomial that comes next in the input is this one, with zeros above its degree.
fn next_is<R: Read>(input: &mut R, f: &Poly) -> io::Result<bool> {
    let mut want = [0u32; 129];
    let size = read_list(input, &mut want)?.len();
    Ok(f.size == size && f.c == want)
}

// Whether the polynomials that come next in the input are these.
fn next_are<R: Read>(input: &mut R, polynomials: &[Poly]) -> io::Result<bool> {
    let mut agree = true;
    for f in polynomials {
        agree &= next_is(input, f)?;
    }
    Ok(agree)
}

// The number that comes next in the input, cut to the largest distance of an answer: its sign, 1 where it is
// negative, and its size.
fn read_signed<R: Read>(input: &mut R) -> io::Result<i64> {
    let negative = read_word(input)? == 1;
    let size = read_wide(input)?.min(MOST) as i64;
    Ok(if negative { -size } else { size })
}

// Whether the product that comes next in the input is that of the two ideals; in a refusal every polynomial is 0. The
// line of one that differs has the number that it said.
fn multiplies<P: Print, R: Read>(
    job: &Job<'_, P>,
    input: &mut R,
    x: Operand<'_>,
    y: Operand<'_>,
) -> io::Result<bool> {
    let zero = IdealProduct {
        s: Poly::zero(),
        ideal: Ideal::zeros(),
    };
    let (number, t) = product(job.ticket, x.pair, y.pair).numbered(zero);
    let stored = read_word(input)?;
    let agree = next_are(input, &[t.s, t.ideal.q, t.ideal.p])?;
    job.report(Numbers::refused(number), number == stored && agree)
}

// The same of the giant step, with f and the distance, which are 0 in a refusal.
fn steps<P: Print, R: Read>(
    job: &Job<'_, P>,
    input: &mut R,
    x: Operand<'_>,
    y: Operand<'_>,
) -> io::Result<bool> {
    let zero = GiantStep {
        ideal: Ideal::zeros(),
        shift: Shift { f: 0, distance: 0 },
    };
    let answer = giant_step(job.ticket, x.pair, x.distance, y.pair, y.distance);
    let (number, t) = answer.numbered(zero);
    let stored = read_word(input)?;
    let agree = next_are(input, &[t.ideal.q, t.ideal.p])?;
    let f_stored = -i64::from(read_word(input)?);
    let distance_stored = read_signed(input)?;
    let numbers = (number, t.shift.f, t.shift.distance) == (stored, f_stored, distance_stored);
    job.report(Numbers::refused(number), numbers && agree)
}

// A job after its ticket.
fn compare<P: Print, R: Read>(job: &Job<'_, P>, input: &mut R) -> io::Result<bool> {
    let mut q1 = [0u32; 64];
    let mut p1 = [0u32; 64];
    let mut q2 = [0u32; 64];
    let mut p2 = [0u32; 64];
    let x = read_operand(input, &mut q1, &mut p1)?;
    let y = read_operand(input, &mut q2, &mut p2)?;
    let product = multiplies(job, input, x, y)?;
    let step = steps(job, input, x, y)?;
    Ok(product && step)
}

fn main(rt: HostRuntime) -> io::Result<()> {
    run_jobs(&rt, &mut rt.reader(), |job, input| compare(job, input))
}
