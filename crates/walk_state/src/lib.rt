// What the walk of the continued fraction of √D starts from, made once: the root d of D, 2d and the table of inverses.
#![tactic(auto)]

pub mod root;
pub mod start;

ghost use Rattle.base_surd.specs.Surd as surds;
ghost use Rattle.walk_step.specs.Step.{Inverses};

use crate::root::Root;
use crate::start::fill_inverses;
use base_surd::Surd;

// √D with its root, and the inverse of each a below q. The table is lent: a copy of its 4,096 entries takes longer than a
// short walk.
#[derive(Clone, Copy)]
pub struct Walk<'a> {
    pub root: Root,
    pub inverses: &'a [u32; 4096],
    pub ghost inverses_are: { Inverses (surds.name root.surd) inverses.now },
}

impl<'a> Walk<'a> {
    ghost use Rattle.std.specs.Prelude.{◌≡◌};

    // Fills the table, d and twice.
    pub fn new(s: &Surd, inverses: &'a mut [u32; 4096]) -> Self
        ensures { result.root.surd ≡ s.now }
    {
        fill_inverses(s.field, inverses);
        Walk {
            root: Root::new(s),
            inverses,
        }
    }
}
