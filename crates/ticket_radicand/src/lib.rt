// The polynomial D: its coefficients, and the tests on them.
#![tactic(auto)]

ghost use Rattle.std.specs.Prelude.{ℕ, ◌≡◌, ◌+◌, ◌<◌, ◌≤◌, length};
ghost use Rattle.spec_definitions.specs.Ticket.{wrong_coefficient, wrong_lead, not_squarefree, first_of};
ghost use Rattle.spec_laws.specs.FirstTest.{radicand_tests};
ghost use Rattle.base_field.specs.Named.{name};
ghost use Rattle.base_places.specs.Places.{FilledBy};
ghost use Rattle.base_polynomial.specs.Whole.{poly, Held, Is, Holds};
ghost use Rattle.base_refusals.specs.Number.{refused_by};
ghost use Rattle.ticket_radicand.specs.Radicand.{coefficients};

use base_euclid::gcd::gcd;
use base_field::Field;
use base_places::linear::{derivative_places, fill_places, top};
use base_polynomial::Poly;
use base_refusals::Refusal;
use base_words::value;

// The n + 1 coefficients that `coefficient` says.
pub fn filled<F: Fn(usize) -> u32>(n: usize, coefficient: F) -> Poly
    requires n_bound { n ≤ 64 }
    requires called { (i : ℕ) → i < n + 1 → F.pre coefficient i }
    ensures size { result.size ≡ n + 1 }
    ensures places { FilledBy (F.post coefficient) (n + 1) result.c }
{
    let mut radicand = Poly::zero();
    fill_places(n + 1, coefficient, &mut radicand.c);
    radicand.size = n + 1;
    radicand
}

// The values of the n + 1 words after the first two.
pub fn radicand_of(n: usize, words: &[u32]) -> Poly
    requires { (n ≤ 64) × (n + 3 ≤ length words.now) }
    ensures { Holds result (coefficients n words.now) }
{
    filled(n, |i| value(words[i + 2]))
}

// A coefficient is q or more.
fn wrong_coefficient(f: Field, radicand: &Poly) -> bool
    requires { radicand.now.size ≤ 129 }
    ensures { result ≡ wrong_coefficient (name f) (poly radicand.now) }
{
    radicand.c[..radicand.size].iter().any(|&c| f.q <= c)
}

// The coefficient of x^n isn't 1.
fn wrong_lead(n: usize, radicand: &Poly) -> bool
    requires { (n ≤ 64) × (n < radicand.now.size) }
    ensures { result ≡ wrong_lead n (poly radicand.now) }
{
    radicand.c[n] != 1
}

// The square of some polynomial of degree 1 or more divides D: gcd(D, D') is not constant.
fn not_squarefree(f: Field, radicand: &Poly) -> bool
    requires { Held f radicand.now }
    ensures { result ≡ not_squarefree (name f) (poly radicand.now) }
{
    let mut a = *radicand;
    let mut b = Poly::zero();
    derivative_places(f, &a.c, a.size, &mut b.c);
    b.size = top(&b.c, a.size);
    let mut g = Poly::zero();
    gcd(f, &mut a, &mut b, &mut g);
    g.size != 1
}

// The first of the tests 5, 6 and 7 that applies.
#[tactic(auto, using(crate::specs::Radicand::first_test), unfolding(spec_laws::specs::FirstTest::radicand_tests))]
pub fn radicand_refusal(f: Field, n: usize, radicand: &Poly) -> Result<(), Refusal>
    requires n_bound { (n ≤ 64) × (radicand.now.size ≡ n + 1) }
    requires is { Is f radicand.now (poly radicand.now) }
    ensures { refused_by result ≡ first_of (radicand_tests (name f) n (poly radicand.now)) }
{
    if wrong_coefficient(f, radicand) {
        return Err(Refusal::Coefficient);
    }
    if wrong_lead(n, radicand) {
        return Err(Refusal::Lead);
    }
    if not_squarefree(f, radicand) {
        return Err(Refusal::Squarefree);
    }
    Ok(())
}
