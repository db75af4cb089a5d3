// The job ticket: any words are read as √D over a field and a budget, or refused by the first test that applies.
#![tactic(auto)]

ghost use Rattle.std.specs.Prelude.{◌≡◌, ◌+◌, ◌≤◌, suc, IfOk, length, get_or};
ghost use Rattle.spec_arithmetic.specs.Words.{value as value_of};
ghost use Rattle.spec_definitions.specs.Ticket.{genus, ticket_of, refusal_of, first_of};
ghost use Rattle.spec_laws.specs.FirstTest.{radicand_tests};
ghost use Rattle.base_field.specs.Named.{name};
ghost use Rattle.base_polynomial.specs.Whole.{poly, Is};
ghost use Rattle.base_refusals.specs.Number.{refused_by};
ghost use Rattle.base_surd.specs.Surd.{ticket_with};
ghost use Rattle.ticket_radicand.specs.Radicand.{coefficients};
ghost use Rattle.ticket_read.specs.Refusal.{PastLayout};

use base_counters::Budget;
use base_field::Field;
use base_polynomial::Poly;
use base_refusals::Refusal;
use base_surd::Surd;
use base_words::value;
use ticket_layout::head::wrong_head;
use ticket_layout::order::layout_refusal;
use ticket_radicand::{radicand_of, radicand_refusal};

// What a ticket says: √D, and how many steps of its walk at most.
#[derive(Clone, Copy)]
pub struct Ticket {
    pub surd: Surd,
    pub budget: Budget,
    // n is 2g + 2.
    pub ghost even: { suc (genus surd.n) + suc (genus surd.n) ≡ surd.n },
}

// A field, a degree, D and a budget that need not come from words: n may be odd, and the budget be any.
#[derive(Clone, Copy)]
pub struct Parts {
    pub field: Field,
    pub n: usize,
    pub radicand: Poly,
    pub budget: u64,
}

// The ticket of these parts, past the tests 1 to 4: the tests 5 to 7 on D.
pub fn admit(field: Field, n: usize, radicand: Poly, budget: u64) -> Result<Parts, Refusal>
    requires n_bound { (n ≤ 64) × (radicand.size ≡ n + 1) }
    requires is { Is field radicand (poly radicand) }
    ensures refused { refused_by result ≡ first_of (radicand_tests (name field) n (poly radicand)) }
    ensures parts { IfOk result (λ t. (t.field ≡ field) × (t.n ≡ n) × (t.radicand ≡ radicand) × (t.budget ≡ budget)) }
{
    radicand_refusal(field, n, &radicand)?;
    Ok(Parts {
        field,
        n,
        radicand,
        budget,
    })
}

// D and the budget, from words that passed the tests 1 to 4; the tests 5 to 7 on D.
fn read_radicand(field: Field, n: usize, words: &[u32]) -> Result<Ticket, Refusal>
    requires all { length words.now ≡ n + 5 }
    requires past { PastLayout words.now (name field) n (coefficients n words.now) (value_of (get_or words.now (n + 3) 0)) }
    ensures refused { refused_by result ≡ refusal_of words.now }
    ensures read { IfOk result (λ t. ticket_of words.now ≡ ticket_with t.surd t.budget.steps) }
{
    let radicand = radicand_of(n, words);
    radicand_refusal(field, n, &radicand)?;
    Ok(Ticket {
        surd: Surd { field, n, radicand },
        budget: Budget {
            steps: value(words[n + 3]) as u64,
        },
    })
}

// The ticket that words of any number and any values say.
pub fn read_ticket(words: &[u32]) -> Result<Ticket, Refusal>
    ensures refused { refused_by result ≡ refusal_of words.now }
    ensures read { IfOk result (λ t. ticket_of words.now ≡ ticket_with t.surd t.budget.steps) }
{
    if wrong_head(words) {
        return Err(Refusal::Head);
    }
    let q = value(words[0]);
    let n = value(words[1]) as usize;
    let field = layout_refusal(q, n, words)?;
    read_radicand(field, n, words)
}
