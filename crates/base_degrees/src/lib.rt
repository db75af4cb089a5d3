// Which n are allowed: the degrees of D.
#![tactic(auto)]

ghost use Rattle.std.specs.Prelude.{◌≡◌, ◌≤◌, not, IsTrue};
ghost use Rattle.spec_definitions.specs.Ticket.{wrong_degree};

// Whether n is even and 2 to 64.
#[tactic(auto, unfolding(spec_definitions::specs::Ticket::wrong_degree))]
pub fn is_allowed_degree(n: u64) -> bool
    ensures value { result ≡ not (wrong_degree n) }
    ensures bounds { IsTrue result → (2 ≤ n) × (n ≤ 64) }
{
    n % 2 == 0 && (2..=64).contains(&n)
}
