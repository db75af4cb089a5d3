// The tests on q, n and the layout in their order.
ghost use Rattle.std.specs.Prelude.{◌≡◌, IfOk};
ghost use Rattle.spec_definitions.specs.Ticket.{first_of};
ghost use Rattle.base_refusals.specs.Number.{refused_by};
ghost use Rattle.ticket_layout.specs.Refusal.{layout_tests};

use crate::head::wrong_degree;
use crate::layout::wrong_layout;
use base_field::Field;
use base_primes::is_odd_prime;
use base_refusals::Refusal;

// The field of q elements, or the first of the tests 2, 3 and 4 that applies. q and n are the values of the first
// two words.
pub fn layout_refusal(q: u32, n: usize, words: &[u32]) -> Result<Field, Refusal>
    ensures refused { refused_by result ≡ first_of (layout_tests q n words.now) }
    ensures field { IfOk result (λ f. f.q ≡ q) }
{
    if !is_odd_prime(q) {
        return Err(Refusal::Prime);
    }
    if wrong_degree(n) {
        return Err(Refusal::Degree);
    }
    if wrong_layout(n, words) {
        return Err(Refusal::Layout);
    }
    Ok(Field::new(q))
}
