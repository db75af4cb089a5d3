// A pair (Q, P) as it is handed in: words of any number and any values, tested by refusal 9 and read as two
// polynomials.
#![tactic(auto)]

ghost use Rattle.std.specs.Prelude.{◌≡◌, ℕ, [], ◌<◌, ◌≤◌, ◌↔◌, length, false, All, IsTrue, IfOk};
ghost use Rattle.spec_arithmetic.specs.Field.{FieldName, ops as ops_of, fits};
ghost use Rattle.spec_arithmetic.specs.Polynomials.{trim, rem as rem_of};
ghost use Rattle.spec_arithmetic.specs.Words.{some_not};
ghost use Rattle.spec_fields.specs.Named.{Ok as IsCoefficient};
ghost use Rattle.spec_laws.specs.Pairs.{norm_at};
ghost use Rattle.base_refusals.specs.Number.{refused_by};
ghost use Rattle.base_field.specs.Named.{name, ops};
ghost use Rattle.base_polynomial.specs.Whole.{poly, Held};
ghost use Rattle.base_polynomial.specs.Over.{Is};
ghost use Rattle.base_surd.specs.Surd.{g, ticket_with};
ghost use Rattle.ideal_operand.specs.Ideal.{held_pair};
ghost use Rattle.ideal_pair.specs.Pair.{words_of, pair_refusal, AreWords, IsIdealOf, Paired};

use base_division::difference::subtract_product;
use base_division::division::remainder;
use base_field::Field;
use base_ideal::Ideal;
use base_places::linear::top;
use base_polynomial::Poly;
use base_refusals::Refusal;
use base_surd::Surd;

// The words of Q and those of P, of any number and any values.
#[derive(Clone, Copy)]
pub struct Pair<'a> {
    pub q: &'a [u32],
    pub p: &'a [u32],
}

// Each word is below q.
fn all_below(f: Field, words: &[u32]) -> bool
    ensures { IsTrue result ↔ All (λ w. w < f.q) words.now }
{
    words.iter().all(|&w| w < f.q)
}

// g + 1 words and g words, each below q.
#[tactic(auto, unfolding(spec_definitions::specs::Ticket::genus))]
fn words_fit(s: &Surd, x: Pair<'_>) -> bool
    ensures { IsTrue result ↔ AreWords (name s.now.field) (g s.now) x.entry.q.now x.entry.p.now }
{
    let g = s.n / 2 - 1;
    x.q.len() == g + 1 && x.p.len() == g && all_below(s.field, x.q) && all_below(s.field, x.p)
}

// r becomes the polynomial whose coefficients are the words.
fn read(words: &[u32], r: &mut Poly)
    requires { length words.now ≤ 129 }
    ensures { (f : FieldName) → IsCoefficient f 0 → some_not (fits f) words.now ≡ false → Is f r.new (trim (ops_of f) words.now) }
{
    let n = words.len();
    r.c = [0u32; 129];
    r.c[..n].copy_from_slice(words);
    r.size = top(&r.c, n);
}

// Q, which is not 0, divides D − P², where D is the radicand.
fn divides(f: Field, radicand: &Poly, x: &Ideal) -> bool
    requires sizes { (x.now.p.size ≤ 65) × (0 < x.now.q.size) }
    requires held { Held f radicand.now × Held f x.now.q × Held f x.now.p }
    ensures { IsTrue result ↔ (rem_of (ops f) (norm_at (ops f) (poly radicand.now) (held_pair x.now)) (poly x.now.q) ≡ []) }
{
    let mut rest = *radicand;
    subtract_product(f, &mut rest, &x.p, &x.p);
    remainder(f, &mut rest, &x.q);
    rest.size == 0
}

// Q is monic, P has a smaller degree, and Q divides D − P², where D is the radicand.
fn is_ideal(f: Field, radicand: &Poly, x: &Ideal) -> bool
    requires size { x.now.p.size ≤ 65 }
    requires held { Held f radicand.now × Held f x.now.q × Held f x.now.p }
    ensures { IsTrue result ↔ IsIdealOf (name f) (poly radicand.now) x.now }
{
    x.q.lead() == 1 && x.p.size < x.q.size && divides(f, radicand, x)
}

// z becomes the ideal of a pair, where this passes the test of refusal 9.
pub fn read_ideal(s: &Surd, x: Pair<'_>, z: &mut Ideal) -> Result<(), Refusal>
    ensures refused { (b : ℕ) → refused_by result ≡ pair_refusal (ticket_with s.now b) (words_of x.entry) }
    ensures ideal { IfOk result (λ _. Paired s.now x.entry.q.now x.entry.p.now z.new) }
{
    if !words_fit(s, x) {
        return Err(Refusal::Ideal);
    }
    read(x.q, &mut z.q);
    read(x.p, &mut z.p);
    if is_ideal(s.field, &s.radicand, z) {
        Ok(())
    } else {
        Err(Refusal::Ideal)
    }
}

// The same ideal by value.
pub fn read_pair(s: &Surd, x: Pair<'_>) -> Result<Ideal, Refusal>
    ensures refused { (b : ℕ) → refused_by result ≡ pair_refusal (ticket_with s.now b) (words_of x.entry) }
    ensures ideal { IfOk result (Paired s.now x.entry.q.now x.entry.p.now) }
{
    let mut ideal = Ideal::zeros();
    read_ideal(s, x, &mut ideal)?;
    Ok(ideal)
}
