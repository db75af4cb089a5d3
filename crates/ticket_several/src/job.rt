// The single job at a prime: the integer coefficients are reduced modulo it.
ghost use Rattle.std.specs.Prelude.{◌≡◌, map, ◌+◌, ◌<◌, ◌≤◌, IfOk, length, get_or, take, drop};
ghost use Rattle.spec_arithmetic.specs.Words.{values, value as value_of};
ghost use Rattle.spec_definitions.specs.Ticket.{ticket_of, refusal_of};
ghost use Rattle.spec_several.specs.Several.{residue as residue_of, several_refusal, job_words};
ghost use Rattle.base_field.specs.Named.{name};
ghost use Rattle.base_polynomial.specs.Whole.{Holds};
ghost use Rattle.base_refusals.specs.Number.{refused_by};
ghost use Rattle.base_surd.specs.Surd.{ticket_with};
ghost use Rattle.ticket_read.specs.Refusal.{PastLayout};

use base_counters::Budget;
use base_field::Field;
use base_polynomial::Poly;
use base_primes::is_odd_prime;
use base_refusals::Refusal;
use base_surd::Surd;
use base_words::{VALUES, value};
use ticket_radicand::{filled, radicand_refusal};
use ticket_read::Ticket;

// 2²⁷: a value from here on stands for a negative number, the value less 2²⁸.
const NEGATIVES: u32 = 134217728;

// The residue of the number that a value stands for.
fn residue(f: Field, v: u32) -> u32
    ensures { result ≡ residue_of f.q v }
{
    let r = f.reduce(v);
    if v < NEGATIVES {
        r
    } else {
        f.sub(r, f.reduce(VALUES))
    }
}

// The residues of the n + 1 coefficients.
fn reduced(f: Field, n: usize, words: &[u32]) -> Poly
    requires { (n ≤ 64) × (n + 2 ≤ length words.now) }
    ensures { Holds result (map (residue_of f.q) (map value_of (take (n + 1) (drop 1 words.now)))) }
{
    filled(n, |i| residue(f, value(words[i + 1])))
}

// The job over the field, with n the value of word 0; the tests 5 to 7 on D.
fn read_reduced(field: Field, n: usize, words: &[u32]) -> Result<Ticket, Refusal>
    requires long { n + 3 ≤ length words.now }
    requires past { PastLayout (job_words words.now field.q) (name field) n (map (residue_of field.q) (map value_of (take (n + 1) (drop 1 words.now)))) (value_of (get_or words.now (n + 2) 0)) }
    ensures refused { refused_by result ≡ refusal_of (job_words words.now field.q) }
    ensures read { IfOk result (λ t. ticket_of (job_words words.now field.q) ≡ ticket_with t.surd t.budget.steps) }
{
    let radicand = reduced(field, n, words);
    radicand_refusal(field, n, &radicand)?;
    Ok(Ticket {
        surd: Surd { field, n, radicand },
        budget: Budget {
            steps: value(words[n + 2]) as u64,
        },
    })
}

// The job at q, read as the words of a ticket for q alone are.
pub fn read_job(q: u32, words: &[u32]) -> Result<Ticket, Refusal>
    requires { (q < values) × (several_refusal words.now ≡ 0) }
    ensures refused { refused_by result ≡ refusal_of (job_words words.now q) }
    ensures read { IfOk result (λ t. ticket_of (job_words words.now q) ≡ ticket_with t.surd t.budget.steps) }
{
    if !is_odd_prime(q) {
        return Err(Refusal::Prime);
    }
    read_reduced(Field::new(q), value(words[0]) as usize, words)
}
