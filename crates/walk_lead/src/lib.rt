// The product of 2/lc Q_j for all j below i along a walk, from index 1 on twice the leading coefficient of p_{i − 1}.
#![tactic(auto)]

ghost use Rattle.std.specs.Prelude.{◌≡◌, ◌*◌};
ghost use Rattle.walk_lead.specs.Kept.{factor_of, Asks};

use base_polynomial::Poly;

// twice_lead·2/lc Q, not reduced. The inverse of the leading coefficient is in the table. A coefficient times three such
// factors is below 2⁵¹, so that a run reduces the product once in three steps.
pub fn times_factor(twice_lead: u64, inverses: &[u32; 4096], current: &Poly) -> u64
    requires { Asks inverses.now current.now twice_lead }
    ensures { result ≡ twice_lead * factor_of inverses.now current.now }
{
    let inverse = inverses[current.c[current.size - 1] as usize] as u64;
    twice_lead * (inverse + inverse)
}
