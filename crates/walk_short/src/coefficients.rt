// The quotient of twice − rest by Q from its top coefficient down: each clears what is left at its place. Each
// term is multiplied by the inverse of the leading coefficient of Q on its own, so that one product alone
// waits for the coefficient above. q − a stands for −a, so that no sum goes below 0.
ghost use Rattle.std.specs.Prelude.{◌≡◌, ◌*◌, ◌+◌, ◌-◌, ◌%◌, ◌<◌, ◌≤◌, get_or};
ghost use Rattle.spec_bridge.specs.Product.{shifted};
ghost use Rattle.base_field.specs.Named.{Ok};
ghost use Rattle.base_places.specs.Row.{Bounded};
ghost use Rattle.walk_short.specs.Start.{quotient_of};

use crate::Divided;
use base_field::Field;
use base_places::product::below;

// The coefficient of Q at the place before k, over the leading one; 0 where there is none.
pub fn over_lead(f: Field, lead_inverse: u32, current: &[u32; 129], k: usize) -> u32
    requires { Ok f lead_inverse × (k < 129) × Bounded f.q current.now }
    ensures { result ≡ (shifted current.now 1 k * lead_inverse) % f.q }
{
    f.reduce(below(current, k) * lead_inverse)
}

// The coefficient of twice − rest at k, over the leading one of Q, not reduced. 8,190·4,095 is below 2³².
fn dividend_at(d: &Divided, k: usize) -> u32
    requires { k < 129 }
    ensures value { result ≡ (get_or d.now.twice.now k 0 + (d.now.field.q - get_or d.now.rest.now k 0)) * d.now.lead_inverse }
    ensures upper_bound { result ≤ 8190 * 4095 }
{
    (d.twice[k] + (d.field.q - d.rest[k])) * d.lead_inverse
}

// The first coefficient from the top.
pub fn first(d: &Divided) -> u32
    ensures { result ≡ get_or (quotient_of d.now) (d.now.top - d.now.size) 0 }
{
    d.field.reduce(dividend_at(d, d.top - 1))
}

// The second coefficient from the top, where a1 is the first; h stands before the leading coefficient of Q,
// over that.
pub fn second(d: &Divided, a1: u32, h: u32) -> u32
    requires longer { d.now.size < d.now.top }
    requires a1_value { a1 ≡ get_or (quotient_of d.now) (d.now.top - d.now.size) 0 }
    requires h_value { h ≡ (shifted d.now.current.now 1 (d.now.size - 1) * d.now.lead_inverse) % d.now.field.q }
    ensures { result ≡ get_or (quotient_of d.now) (d.now.top - d.now.size - 1) 0 }
{
    let q = d.field.q;
    let t = dividend_at(d, d.top - 2);
    d.field.reduce(t + (q - a1) * h)
}

// The third coefficient from the top, where a2 is the first and a1 the second; g stands before h.
pub fn third(d: &Divided, a1: u32, a2: u32, h: u32, g: u32) -> u32
    requires longer { d.now.size + 1 < d.now.top }
    requires a1_value { a1 ≡ get_or (quotient_of d.now) (d.now.top - d.now.size - 1) 0 }
    requires a2_value { a2 ≡ get_or (quotient_of d.now) (d.now.top - d.now.size) 0 }
    requires h_value { h ≡ (shifted d.now.current.now 1 (d.now.size - 1) * d.now.lead_inverse) % d.now.field.q }
    requires g_value { g ≡ (shifted d.now.current.now 1 (d.now.size - 2) * d.now.lead_inverse) % d.now.field.q }
    ensures { result ≡ get_or (quotient_of d.now) (d.now.top - d.now.size - 2) 0 }
{
    let q = d.field.q;
    let t = dividend_at(d, d.top - 3);
    d.field.reduce(t + (q - a1) * h + (q - a2) * g)
}
