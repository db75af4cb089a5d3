// Two lists, p and s, divided by the leading coefficient of p, so that p is monic.
#![tactic(auto)]

ghost use Rattle.std.specs.Prelude.{◌-◌, ◌<◌, length, get_or};
ghost use Rattle.spec_arithmetic.specs.Polynomials.{scale};
ghost use Rattle.base_field.specs.Named.{Ok, ops};
ghost use Rattle.base_places.specs.Row.{Bounded};
ghost use Rattle.unit_combine.specs.Written.{Written};

use base_field::Field;

// The list becomes u times what it holds, each place by one reduction.
fn multiply(f: Field, u: u32, list: &mut [u32])
    requires u_ok { Ok f u }
    requires bounded { Bounded f.q list.old }
    ensures { Written (scale (ops f) u list.old) list.new }
{
    for k in 0..list.len() {
        list[k] = f.reduce(u * list[k]);
    }
}

// p and s are divided by the leading coefficient of p, which stands at its last place: p becomes monic.
#[tactic(auto, using(crate::specs::Multiple::inverse_ok))]
pub fn divide_by_lead(f: Field, p: &mut [u32], s: &mut [u32])
    requires nonempty { 0 < length p.old }
    requires bounded { Bounded f.q p.old × Bounded f.q s.old }
    ensures written { Written (scale (ops f) ((ops f).inv (get_or p.old (length p.old - 1) 0)) p.old) p.new }
    ensures written_2 { Written (scale (ops f) ((ops f).inv (get_or p.old (length p.old - 1) 0)) s.old) s.new }
{
    let last = p.len() - 1;
    let lead = p[last];
    let lead_inverse = f.inverse(lead);
    multiply(f, lead_inverse, p);
    multiply(f, lead_inverse, s);
}
