// One step of the walk where the quotient is a0 + a1·x + a2·x², as two of nine are over F_3.
ghost use Rattle.std.specs.Prelude.{◌≡◌, ◌+◌};
ghost use Rattle.walk_short.specs.Start.{Leads};

use crate::coefficients::{first, over_lead, second, third};
use crate::passes::{next, remainder};
use crate::{Divided, Step};

// One step where Q has two coefficients less than twice − rest may have.
pub fn quadratic(s: &Step, remains: &mut [u32; 129], after: &mut [u32; 129])
    requires { s.now.top ≡ s.now.size + 2 }
    ensures { Leads s.now remains.new after.new }
{
    let d = Divided {
        field: s.field,
        twice: s.twice,
        current: s.current,
        rest: s.rest,
        top: s.top,
        size: s.size,
        lead_inverse: s.lead_inverse,
    };
    let mut a = [0u32; 129];
    a[2] = first(&d);
    let h = over_lead(s.field, s.lead_inverse, s.current, s.size - 1);
    let g = over_lead(s.field, s.lead_inverse, s.current, s.size.saturating_sub(2));
    a[1] = second(&d, a[2], h);
    a[0] = third(&d, a[1], a[2], h, g);
    remainder::<2>(s, a[0], a[1], a[2], remains);
    next::<2>(s, a[0], a[1], a[2], remains, after);
}
