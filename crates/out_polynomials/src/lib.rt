// Answers with polynomials: these go into lent arrays of 129 numbers, and their sizes and all else are plain
// numbers, laid out as C lays them out.
#![tactic(auto)]

ghost use Rattle.std.specs.Prelude.{◌≡◌, [], IfOk, IfErr, pos};
ghost use Rattle.base_refusals.specs.Number.{number_of, refused_by};
ghost use Rattle.base_polynomial.specs.Whole.{Holds};
ghost use Rattle.out_polynomials.specs.Lent.{poly_in};

use base_polynomial::Poly;
use base_refusals::Refusal;
use call_giant_step::{GiantStepAnswer, Shift};
use call_ideal_at::IdealAtAnswer;
use call_product::ProductAnswer;

// The number of words handed in, the number of a refusal or 0, and the sizes of S, Q and P: the degree + 1,
// or 0 for the zero polynomial.
#[repr(C)]
#[derive(Clone, Copy)]
pub struct ProductNumbers {
    pub words: u64,
    pub number: u64,
    pub s_size: u64,
    pub q_size: u64,
    pub p_size: u64,
}

// The number of words handed in, the number of a refusal or 0, the sizes of Q and P, f and the distance.
#[repr(C)]
#[derive(Clone, Copy)]
pub struct GiantStepNumbers {
    pub words: u64,
    pub number: u64,
    pub q_size: u64,
    pub p_size: u64,
    pub f: i64,
    pub distance: i64,
}

// The number of words handed in, the number of a refusal or 0, the sizes of Q and P, the distance and that of the next.
#[repr(C)]
#[derive(Clone, Copy)]
pub struct IdealNumbers {
    pub words: u64,
    pub number: u64,
    pub q_size: u64,
    pub p_size: u64,
    pub distance: u64,
    pub next: u64,
}

// The places of a polynomial into an array, and its size.
fn put(r: &Poly, places: &mut [u32; 129]) -> u64
    ensures { poly_in places.new result ≡ r.now }
{
    let c = r.c;
    *places = c;
    r.size as u64
}

// The number of a refusal.
fn number(refusal: Refusal) -> u64
    ensures { result ≡ number_of refusal }
{
    u64::from(u32::from(refusal))
}

// An answer of the call `product`; zeros in a refusal.
pub fn put_product(
    a: ProductAnswer,
    s: &mut [u32; 129],
    q: &mut [u32; 129],
    p: &mut [u32; 129],
) -> ProductNumbers
    ensures words { result.words ≡ a.words }
    ensures number { result.number ≡ refused_by a.outcome }
    ensures product { IfOk a.outcome (λ t. (poly_in s.new result.s_size ≡ t.s) × (poly_in q.new result.q_size ≡ t.ideal.q) × (poly_in p.new result.p_size ≡ t.ideal.p)) }
    ensures zeros { IfErr a.outcome (λ _. Holds (poly_in s.new result.s_size) [] × Holds (poly_in q.new result.q_size) [] × Holds (poly_in p.new result.p_size) []) }
{
    match &a.outcome {
        Ok(t) => ProductNumbers {
            words: a.words,
            number: 0,
            s_size: put(&t.s, s),
            q_size: put(&t.ideal.q, q),
            p_size: put(&t.ideal.p, p),
        },
        Err(refusal) => ProductNumbers {
            words: a.words,
            number: number(*refusal),
            s_size: put(&Poly::zero(), s),
            q_size: put(&Poly::zero(), q),
            p_size: put(&Poly::zero(), p),
        },
    }
}

// An answer of the call `giant_step`; zeros in a refusal.
pub fn put_giant_step(
    a: GiantStepAnswer,
    q: &mut [u32; 129],
    p: &mut [u32; 129],
) -> GiantStepNumbers
    ensures words { result.words ≡ a.words }
    ensures number { result.number ≡ refused_by a.outcome }
    ensures giant_step { IfOk a.outcome (λ t. (poly_in q.new result.q_size ≡ t.ideal.q) × (poly_in p.new result.p_size ≡ t.ideal.p) × (result.f ≡ t.shift.f) × (result.distance ≡ t.shift.distance)) }
    ensures zeros { IfErr a.outcome (λ _. Holds (poly_in q.new result.q_size) [] × Holds (poly_in p.new result.p_size) [] × (result.f ≡ pos 0) × (result.distance ≡ pos 0)) }
{
    match &a.outcome {
        Ok(t) => GiantStepNumbers {
            words: a.words,
            number: 0,
            q_size: put(&t.ideal.q, q),
            p_size: put(&t.ideal.p, p),
            f: t.shift.f,
            distance: t.shift.distance,
        },
        Err(refusal) => {
            let shift = Shift { f: 0, distance: 0 };
            GiantStepNumbers {
                words: a.words,
                number: number(*refusal),
                q_size: put(&Poly::zero(), q),
                p_size: put(&Poly::zero(), p),
                f: shift.f,
                distance: shift.distance,
            }
        }
    }
}

// An answer of the call `ideal_at`; zeros in a refusal.
pub fn put_ideal_at(a: IdealAtAnswer, q: &mut [u32; 129], p: &mut [u32; 129]) -> IdealNumbers
    ensures words { result.words ≡ a.words }
    ensures number { result.number ≡ refused_by a.outcome }
    ensures ideal_at { IfOk a.outcome (λ t. (poly_in q.new result.q_size ≡ t.ideal.q) × (poly_in p.new result.p_size ≡ t.ideal.p) × (result.distance ≡ t.distance.0) × (result.next ≡ t.next.0)) }
    ensures zeros { IfErr a.outcome (λ _. Holds (poly_in q.new result.q_size) [] × Holds (poly_in p.new result.p_size) [] × (result.distance ≡ 0) × (result.next ≡ 0)) }
{
    match &a.outcome {
        Ok(t) => IdealNumbers {
            words: a.words,
            number: 0,
            q_size: put(&t.ideal.q, q),
            p_size: put(&t.ideal.p, p),
            distance: t.distance.0,
            next: t.next.0,
        },
        Err(refusal) => IdealNumbers {
            words: a.words,
            number: number(*refusal),
            q_size: put(&Poly::zero(), q),
            p_size: put(&Poly::zero(), p),
            distance: 0,
            next: 0,
        },
    }
}
