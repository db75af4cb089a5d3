// The records of a walk that is found, one after the other.
ghost use Rattle.std.specs.Prelude.{◌≡◌, ◌++◌, ℕ, ◌+◌, ◌*◌, ◌≤◌, length, drop};
ghost use Rattle.spec_definitions.specs.Listing.{listing_of};
ghost use Rattle.base_surd.specs.Surd.{ticket_with};

use base_polynomial::Poly;
use listing_record::write_record_of_walk;
use walk_run::FoundWalk;
use walk_stride::{begin_walk, turn_on};

// The listing of √D: its m records, where m is the quasi-period.
pub fn write_records(w: &FoundWalk, out: &mut [u32])
    requires { w.now.m.0 * (w.now.walk.now.root.surd.n + 4) ≤ length out.old }
    ensures { (b : ℕ) → out.new ≡ listing_of (ticket_with w.now.walk.now.root.surd b) w.now.r.0 w.now.m.0 ++ drop (w.now.m.0 * (w.now.walk.now.root.surd.n + 4)) out.old }
{
    let words = w.walk.root.surd.n + 4;
    let mut before = Poly::zero();
    let mut current = Poly::zero();
    let mut rest = [0u32; 129];
    let mut at = begin_walk(w.walk, &mut before, &mut current, &mut rest);
    for i in 0..w.m.0 as usize {
        let place = i * words;
        write_record_of_walk(
            w.walk,
            &current,
            &rest,
            at,
            w.r,
            &mut out[place..place + words],
        );
        at = turn_on(w.walk, &mut before, &mut current, &mut rest, at);
    }
}
