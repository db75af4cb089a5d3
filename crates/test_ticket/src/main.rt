// Reads jobs from standard input and prints what each is read as: the number of the refusal, q, n, the
// budget, and the coefficients of D.
// The input is the number of jobs, then for each job the number of its words, at most 80, and the words; all
// as four bytes, low byte first.
#![tactic(auto)]

use std::io;
use test_jobs::{read_list, read_word};
use ticket_read::{Ticket, read_ticket};

fn show_ticket(rt: &impl Print, t: &Ticket) -> io::Result<()> {
    let s = &t.surd;
    print!(rt; "0 {} {} {} ", s.field.q, s.n, t.budget.steps)?;
    for coefficient in &s.radicand.c[..s.radicand.size] {
        print!(rt; "{coefficient} ")?;
    }
    println!(rt; "")
}

fn show(rt: &impl Print, words: &[u32]) -> io::Result<()> {
    match read_ticket(words) {
        Ok(t) => show_ticket(rt, &t),
        Err(refusal) => println!(rt; "{} 0 0 0 ", u32::from(refusal)),
    }
}

fn main(rt: HostRuntime) -> io::Result<()> {
    let mut input = rt.reader();
    let mut room = [0u32; 80];
    for _ in 0..read_word(&mut input)? {
        let words = read_list(&mut input, &mut room)?;
        show(&rt, words)?;
    }
    Ok(())
}
