// One step of the walk of the continued fraction of √D where the quotient has degree 1 or 2, as most have: its
// coefficients directly, and one pass each for the remainder and the next Q.
#![tactic(auto)]

pub mod coefficients;
pub mod linear;
mod passes;
pub mod quadratic;

ghost use Rattle.std.specs.Prelude.{◌≡◌, ◌-◌, ◌<◌, ◌≤◌, get_or};
ghost use Rattle.base_field.specs.Named.{name, ops};
ghost use Rattle.walk_short.specs.Step.{Division, Ready};

use base_field::Field;

// What one step starts from. With twice = 2d and rest the remainder of the step before, both of at most `top`
// coefficients, P + d is twice − rest; the Q before stands in `before`, Q in `current`, of `size` coefficients, with
// the inverse of the leading one.
#[derive(Clone, Copy)]
pub struct Step<'a> {
    pub field: Field,
    pub twice: &'a [u32; 129],
    pub before: &'a [u32; 129],
    pub current: &'a [u32; 129],
    pub rest: &'a [u32; 129],
    pub top: usize,
    pub size: usize,
    pub lead_inverse: u32,
    pub ghost sizes: { (0 < size) × (size ≤ top) × (top ≤ 128) },
    pub ghost ready: { Ready (name field) top size twice.now before.now current.now rest.now },
    pub ghost inverse: { lead_inverse ≡ (ops field).inv (get_or current.now (size - 1) 0) },
}

// The division of a step: P + d, which is twice − rest, of at most `top` coefficients, by Q. A step has it without the Q
// before.
#[derive(Clone, Copy)]
pub struct Divided<'a> {
    pub field: Field,
    pub twice: &'a [u32; 129],
    pub current: &'a [u32; 129],
    pub rest: &'a [u32; 129],
    pub top: usize,
    pub size: usize,
    pub lead_inverse: u32,
    pub ghost sizes: { (0 < size) × (size ≤ top) × (top ≤ 128) },
    pub ghost division: { Division (name field) top size twice.now current.now rest.now },
    pub ghost inverse: { lead_inverse ≡ (ops field).inv (get_or current.now (size - 1) 0) },
}
