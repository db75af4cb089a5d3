// The listing of a walk that is found, into a lent list that is long enough.
#![tactic(auto)]

ghost use Rattle.spec_definitions.specs.Answers.{found};
ghost use Rattle.spec_definitions.specs.Listing.{listing_from};
ghost use Rattle.base_surd.specs.Surd.{ticket_with};
ghost use Rattle.walk_outcome.specs.Outcome.{meaning};
ghost use Rattle.listing_found.specs.Answers.{Answers};

use base_refusals::Refusal;
use listing_records::listing::write_records;
use listing_whole::room;
use walk_outcome::Outcome;
use walk_run::FoundWalk;

// The records of a walk that is found, where the list has room for them.
pub fn list_found(w: &FoundWalk, out: &mut [u32]) -> Outcome
    ensures { Answers (listing_from (ticket_with w.now.walk.now.root.surd w.now.budget.steps) (found w.now.r.0 w.now.m.0 w.now.c) out.old) (meaning result) out.new }
{
    if !room(w.walk.root.surd.n, w.m, out.len()) {
        return Refusal::ListingRoom.into();
    }
    write_records(w, out);
    w.outcome()
}
