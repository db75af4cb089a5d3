// √D with the root d of D and twice it: what every step goes by, of the walk and from any ideal.
ghost use Rattle.std.specs.Prelude.{◌≡◌};
ghost use Rattle.spec_arithmetic.specs.Polynomials.{pad, add as add_of};
ghost use Rattle.base_surd.specs.Surd as surds;
ghost use Rattle.walk_state.specs.State.{root_d};

use crate::start::root_of;
use base_places::linear::add_places;
use base_surd::Surd;

// √D with the root d of D and twice = 2d.
#[derive(Clone, Copy)]
pub struct Root {
    pub surd: Surd,
    pub d: [u32; 129],
    pub twice: [u32; 129],
    pub ghost d_is: { d ≡ pad (surds.ops surd) 129 (root_d (surds.name surd) (surds.g surd) (surds.D surd)) },
    pub ghost twice_is: { twice ≡ pad (surds.ops surd) 129 (add_of (surds.ops surd) (root_d (surds.name surd) (surds.g surd) (surds.D surd)) (root_d (surds.name surd) (surds.g surd) (surds.D surd))) },
}

impl Root {
    ghost use Rattle.walk_state.specs.Root.{top};

    // The root d of D, and 2d.
    pub fn new(s: &Surd) -> Self
        ensures { result.surd ≡ s.now }
    {
        let mut d = [0u32; 129];
        let mut twice = [0u32; 129];
        root_of(s, &mut d);
        add_places(s.field, &d, &d, s.n / 2 + 1, &mut twice);
        Root { surd: *s, d, twice }
    }

    // How many coefficients d, twice and each remainder may have: g + 2.
    pub fn top(&self) -> usize
        ensures { result ≡ top self.now }
    {
        self.surd.n / 2 + 1
    }
}
