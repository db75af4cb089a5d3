// The calls for C and Rust: lists are a pointer and a length, answers are plain numbers. None relies on its
// caller.
#![tactic(auto)]

pub mod at_distance;
pub mod estimate;
pub mod half;
pub mod pairs;
pub mod several;

ghost use Rattle.std.specs.Prelude.{◌≡◌, length};
ghost use Rattle.spec_definitions.specs.Answers.{regulator_of};
ghost use Rattle.spec_definitions.specs.Listing.{listing_answer};
ghost use Rattle.spec_definitions.specs.Lookup.{lookup_of, place_of};
ghost use Rattle.spec_definitions.specs.Units.{unit_answer};
ghost use Rattle.unit_room.specs.Room.{lists};
ghost use Rattle.out_numbers.specs.Numbers.{Plain};
ghost use Rattle.out_numbers.specs.Least.{LeastPlain, LeastInLists};

use base_counters::Distance;
use call_lookup::place;
use engine::listing::listing;
use engine::regulator;
use engine::unit::unit;
use out_numbers::{Numbers, Part};

// The regulator of a ticket.
#[unsafe(no_mangle)]
pub extern "C" fn foskadoin_regulator(ticket: &[u32]) -> Numbers
    ensures words { result.words ≡ length ticket.now }
    ensures says { Plain (regulator_of ticket.now) result.number result.first result.second result.third }
    ensures least { LeastPlain ticket.now result.number result.first result.second result.third }
{
    regulator(ticket).into()
}

// The unit of a ticket, in four lent lists.
#[unsafe(no_mangle)]
pub extern "C" fn foskadoin_unit(
    ticket: &[u32],
    p: &mut [u32],
    s: &mut [u32],
    x: &mut [u32],
    y: &mut [u32],
) -> Numbers
    ensures words { result.words ≡ length ticket.now }
    ensures says { Plain (unit_answer ticket.now (lists p.old s.old x.old y.old)).says result.number result.first result.second result.third }
    ensures lists { lists p.new s.new x.new y.new ≡ (unit_answer ticket.now (lists p.old s.old x.old y.old)).lists }
    ensures least { LeastInLists ticket.now (lists p.new s.new x.new y.new) result.number result.first result.second result.third }
{
    unit(ticket, p, s, x, y).into()
}

// The listing of a ticket, in a lent list.
#[unsafe(no_mangle)]
pub extern "C" fn foskadoin_listing(ticket: &[u32], out: &mut [u32]) -> Numbers
    ensures words { result.words ≡ length ticket.now }
    ensures says { Plain (listing_answer ticket.now out.old).says result.number result.first result.second result.third }
    ensures list { out.new ≡ (listing_answer ticket.now out.old).list }
    ensures least { LeastPlain ticket.now result.number result.first result.second result.third }
{
    listing(ticket, out).into()
}

// Where in the list the record with the largest distance at most y stands: refusal 8 is the empty part at the
// list's start.
#[unsafe(no_mangle)]
pub extern "C" fn foskadoin_lookup(list: &[u32], n: u64, y: u64) -> Part
    ensures offset { result.offset ≡ place_of list.now n y }
    ensures length { result.length ≡ length (lookup_of list.now n y) }
{
    place(list, n, Distance(y)).into()
}
