// Polynomials over the field of q elements, as a record of 129 coefficients with its size.
#![tactic(auto)]

pub mod ring;

// A polynomial: its coefficients, constant term first.
// Invariant (`Held`): the coefficients are below q, they are 0 from `size` on, and the one before that place
// is not 0.
#[derive(Clone, Copy)]
pub struct Poly {
    pub c: [u32; 129],
    pub size: usize,
}

impl Poly {
    ghost use Rattle.std.specs.Prelude.{◌≡◌, ◌≤◌, []};
    ghost use Rattle.spec_arithmetic.specs.Polynomials.{lead as lead_of};
    ghost use Rattle.base_field.specs.declared.Field.{Field};
    ghost use Rattle.base_field.specs.Named.{ops};
    ghost use Rattle.base_polynomial.specs.Whole.{poly, Held, Holds};

    // The zero polynomial.
    pub fn zero() -> Self
        ensures { Holds result [] }
    {
        Poly {
            c: [0u32; 129],
            size: 0,
        }
    }

    // The leading coefficient, 0 for the zero polynomial.
    pub fn lead(&self) -> u32
        ensures { (f : Field) → Held f self.now → result ≡ lead_of (ops f) (poly self.now) }
    {
        match self.size {
            1..=129 => self.c[self.size - 1],
            _ => 0,
        }
    }
}
