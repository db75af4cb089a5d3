// The four lists of a unit before the first step: p, s and the work lists x and y.
#![tactic(auto)]

ghost use Rattle.std.specs.Prelude.{[], ◌∷◌, ◌+◌, ◌<◌};
ghost use Rattle.spec_definitions.specs.Ticket.{budgets};
ghost use Rattle.unit_room.specs.Room.{Room};
ghost use Rattle.unit_combine.specs.Pair.{Pair};

use base_counters::Index;
use unit_combine::pair::start;

// With m steps to go, the convergents before the first step: p_{−1} = 1 and s_{−1} = 0, and those before them.
pub fn start_lists(m: Index, p: &mut [u32], s: &mut [u32], x: &mut [u32], y: &mut [u32])
    requires m_lt_budgets { m.0 < budgets }
    requires room { Room 1 p.old s.old x.old y.old }
    ensures pair { Pair m.0 (1 ∷ []) [] p.new x.new }
    ensures pair_2 { Pair (m.0 + 1) (1 ∷ []) [] s.new y.new }
{
    start(m.0, p, x);
    start(m.0 + 1, s, y);
}
