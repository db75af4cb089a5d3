// One step of the walk where the quotient is a0 + a1·x, the most frequent case.
ghost use Rattle.std.specs.Prelude.{◌≡◌, ◌+◌};
ghost use Rattle.walk_short.specs.Start.{Leads};

use crate::coefficients::{first, over_lead, second};
use crate::passes::{next, remainder};
use crate::{Divided, Step};

// One step where Q has one coefficient less than twice − rest may have.
pub fn linear(s: &Step, remains: &mut [u32; 129], after: &mut [u32; 129])
    requires { s.now.top ≡ s.now.size + 1 }
    ensures { Leads s.now remains.new after.new }
{
    let d = Divided {
        field: s.field,
        twice: s.twice,
        current: s.current,
        rest: s.rest,
        top: s.top,
        size: s.size,
        lead_inverse: s.lead_inverse,
    };
    let mut a = [0u32; 129];
    a[1] = first(&d);
    let h = over_lead(s.field, s.lead_inverse, s.current, s.size - 1);
    a[0] = second(&d, a[1], h);
    remainder::<1>(s, a[0], a[1], 0, remains);
    next::<1>(s, a[0], a[1], 0, remains, after);
}
