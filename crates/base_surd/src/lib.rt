// √D over a field, with D as the tests on a ticket admit it.
#![tactic(auto)]

ghost use Rattle.std.specs.Prelude.{◌≤◌};
ghost use Rattle.spec_definitions.specs.Ticket.{genus};
ghost use Rattle.spec_laws.specs.Admitted.{Admitted};
ghost use Rattle.base_field.specs.Named.{name};
ghost use Rattle.base_polynomial.specs.Whole.{poly, Held};

use base_field::Field;
use base_polynomial::Poly;

// √D: the field, and D with its degree n.
#[derive(Clone, Copy)]
pub struct Surd {
    pub field: Field,
    pub n: usize,
    pub radicand: Poly,
    // D is monic with an even degree of 2g + 2, has admissible coefficients and is no square.
    pub ghost admitted: { Admitted (name field) (genus n) (poly radicand) },
    pub ghost held: { Held field radicand },
    pub ghost degree_two: { 2 ≤ n },
}
