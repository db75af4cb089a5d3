// Jobs from standard input for the programs that compare the engine's answers with stored ones: words of four
// bytes, low byte first; an outcome as four numbers, as the stored answers have it; a line for a job that
// differs and a last line with the counts.
#![tactic(auto)]

ghost use Rattle.std.specs.Prelude.{◌≡◌, ◌≤◌, ◌<◌, ◌+◌, ◌^◌, if◌then◌else◌, length, IfOk, OnOk};

use std::io::Read;
use std::{fmt, io};
use walk_outcome::Outcome;

// What no call writes: a place that keeps it was not written.
pub const MARK: u32 = 4294967295;

// Past the end of the input every byte is 0.
pub fn read_word<R: Read>(input: &mut R) -> io::Result<u32> {
    let mut bytes = [0u8; 4];
    input.chain(io::repeat(0)).read_exact(&mut bytes)?;
    Ok(u32::from_le_bytes(bytes))
}

// 64 bits, the high word first.
pub fn read_wide<R: Read>(input: &mut R) -> io::Result<u64> {
    let high = u64::from(read_word(input)?);
    let low = u64::from(read_word(input)?);
    Ok((high << 32) | low)
}

// A count, cut to the most that there is room for.
pub fn read_count<R: Read>(input: &mut R, most: usize) -> io::Result<usize>
    ensures { IfOk result (λ n. n ≤ most) }
{
    let count = read_word(input)? as usize;
    Ok(count.min(most))
}

pub fn read_words<R: Read>(input: &mut R, words: &mut [u32]) -> io::Result<()> {
    for place in words.iter_mut() {
        *place = read_word(input)?;
    }
    Ok(())
}

// A list with its length before it, read into the room that is lent: its words, cut to the room.
pub fn read_list<'a, R: Read>(input: &mut R, room: &'a mut [u32]) -> io::Result<&'a [u32]>
    ensures { IfOk result (λ list. length list.now ≤ length room.old) }
{
    let count = read_count(input, room.len())?;
    let list = &mut room[..count];
    read_words(input, list)?;
    Ok(list)
}

// An answer's number and its values, zeros where it has fewer than three.
#[derive(Clone, Copy, Debug, Default, PartialEq, Eq)]
pub struct Numbers {
    pub number: u64,
    pub first: u64,
    pub second: u64,
    pub third: u64,
}

impl Numbers {
    // Those of an answer that is a number alone.
    pub fn refused(number: u32) -> Numbers
        ensures { result ≡ record { number = number; first = 0; second = 0; third = 0 } }
    {
        Numbers {
            number: u64::from(number),
            ..Numbers::default()
        }
    }
}

impl From<Outcome> for Numbers {
    ghost use Rattle.test_jobs.specs.Numbers.{numbers_of};

    ghost from_gives = { λ outcome n. n ≡ numbers_of outcome };

    fn from(outcome: Outcome) -> Numbers {
        match outcome {
            Outcome::Found(r, m, c) => Numbers {
                number: 0,
                first: r.0,
                second: m.0,
                third: u64::from(c),
            },
            Outcome::Spent(k, e) => Numbers {
                number: 11,
                first: k.0,
                second: e.0,
                third: 0,
            },
            Outcome::Refused(number) => Numbers::refused(number),
        }
    }
}

impl fmt::Display for Numbers {
    fn fmt<W: fmt::Write>(&self, f: &mut fmt::Formatter<W>) -> fmt::Result {
        write!(
            f,
            "{} {} {} {}",
            self.number, self.first, self.second, self.third
        )
    }
}

pub fn read_numbers<R: Read>(input: &mut R) -> io::Result<Numbers> {
    let mut words = [0u32; 4];
    read_words(input, &mut words)?;
    let [number, first, second, third] = words.map(u64::from);
    Ok(Numbers {
        number,
        first,
        second,
        third,
    })
}

// A job: its number, counted from 1, the words of its ticket, and where its lines are printed.
#[derive(Drop)]
pub struct Job<'a, P: Print> {
    rt: &'a P,
    number: u32,
    pub ticket: &'a [u32],
}

impl<'a, P: Print> Job<'a, P> {
    // Passes on whether what a call said, and what it wrote, is what is stored. Prints a line where it is not: the
    // job's number and what the call said.
    pub fn report(&self, said: Numbers, agrees: bool) -> io::Result<bool>
        ensures { OnOk result (result ≡ Ok agrees) }
    {
        if !agrees {
            println!(self.rt; "{} {said} ", self.number)?;
        }
        Ok(agrees)
    }
}

// How many jobs differ with one more, which agrees or not.
fn differing(before: u32, agrees: bool) -> u32
    requires { before + 1 < 2 ^ 32 }
    ensures { result ≡ (if agrees then before else before + 1) }
{
    if agrees { before } else { before + 1 }
}

// Runs the jobs of the input and prints their number and how many of them differ. The input is the number of jobs,
// then of each job its ticket and what `run` reads, which says whether the job agrees with what is stored.
pub fn run_jobs<P, R, F>(rt: &P, input: &mut R, mut run: F) -> io::Result<()>
where
    P: Print,
    R: Read,
    F: FnMut(&Job<'_, P>, &mut R) -> io::Result<bool>,
    requires { F.IsAlwaysCallable run }
{
    let mut room = [0u32; 140];
    let jobs = read_word(input)?;
    let mut differ: u32 = 0;
    for i in 0..jobs {
        let ticket = read_list(input, &mut room)?;
        let job = Job {
            rt,
            number: i + 1,
            ticket,
        };
        let agrees = run(&job, input)?;
        differ = differing(differ, agrees);
    }
    println!(rt; "{jobs} jobs, {differ} differ")
}
