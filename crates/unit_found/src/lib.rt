// The unit of a walk that is found, into four lent lists where each is long enough.
#![tactic(auto)]

ghost use Rattle.spec_definitions.specs.Answers.{found};
ghost use Rattle.spec_definitions.specs.Units.{unit_from};
ghost use Rattle.base_surd.specs.Surd.{ticket_with};
ghost use Rattle.walk_outcome.specs.Outcome.{meaning};
ghost use Rattle.unit_room.specs.Room.{lists};
ghost use Rattle.unit_found.specs.Answers.{Answers};

use base_refusals::Refusal;
use unit_lists::unit::write_unit;
use unit_room::room;
use walk_outcome::Outcome;
use walk_run::FoundWalk;

// The unit of a walk that is found, where the lists have room for it.
pub fn unit_found(
    w: &FoundWalk,
    p: &mut [u32],
    s: &mut [u32],
    x: &mut [u32],
    y: &mut [u32],
) -> Outcome
    ensures { Answers (unit_from (ticket_with w.now.walk.now.root.surd w.now.budget.steps) (found w.now.r.0 w.now.m.0 w.now.c) (lists p.old s.old x.old y.old)) (meaning result) (lists p.new s.new x.new y.new) }
{
    if !room(w.r, p.len(), s.len(), x.len(), y.len()) {
        return Refusal::UnitRoom.into();
    }
    write_unit(w, p, s, x, y);
    w.outcome()
}
