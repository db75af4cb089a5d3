// How a run ends that meets a constant Q: the constant with its sign, over the square of the leading coefficient λ
// of p_{m − 1}.
#![tactic(auto)]

ghost use Rattle.std.specs.Prelude.{◌≡◌, ◌%◌};
ghost use Rattle.spec_definitions.specs.Answers.{found as found_at};
ghost use Rattle.spec_laws.specs.Leads.{two_over};
ghost use Rattle.base_field.specs.Named.{Ok, name, ops};
ghost use Rattle.walk_outcome.specs.Outcome.{meaning};
ghost use Rattle.walk_ends.specs.Constant.{signed as signed_of, monic_constant};

use base_counters::Index;
use base_field::Field;
use walk_outcome::Outcome;
use walk_stride::Progress;

// (−1)^m·c, where c is the constant Q_m.
fn signed(f: Field, m: Index, c: u32) -> u32
    requires { Ok f c }
    ensures { result ≡ signed_of (name f) m.0 c }
{
    if m.0 % 2 == 0 { c } else { f.neg(c) }
}

// 1/λ, where `twice_lead` is 2·λ.
fn inverse_of_lead(f: Field, twice_lead: u32) -> u32
    requires { Ok f twice_lead }
    ensures { result ≡ two_over (ops f) twice_lead }
{
    let inverse = f.inverse(twice_lead);
    f.add(inverse, inverse)
}

// (−1)^m·c/λ², where c is the constant Q_m and `twice_lead` is 2·λ.
fn constant(f: Field, m: Index, c: u32, twice_lead: u32) -> u32
    requires { Ok f c × Ok f twice_lead }
    ensures { result ≡ monic_constant (name f) m.0 c twice_lead }
{
    let over = inverse_of_lead(f, twice_lead);
    f.mul(f.mul(over, over), signed(f, m, c))
}

// The first constant Q, which is c, is met where the walk is at `at`; `twice_lead` stands for 2·λ.
pub fn found(f: Field, at: Progress, c: u32, twice_lead: u64) -> Outcome
    requires { Ok f c }
    ensures { meaning result ≡ found_at at.degree.0 at.index.0 (monic_constant (name f) at.index.0 c (twice_lead % f.q)) }
{
    let m = at.index;
    let degree = at.degree;
    let reduced = (twice_lead % f.q as u64) as u32;
    Outcome::Found(degree, m, constant(f, m, c, reduced))
}
