// Whether four lent lists have room for a unit.
#![tactic(auto)]

ghost use Rattle.std.specs.Prelude.{◌≡◌, ◌&&◌, suc, leb};

use base_counters::Distance;

// Each of four lists of these lengths has places 0 to r.
pub fn room(r: Distance, p: usize, s: usize, x: usize, y: usize) -> bool
    ensures { result ≡ (leb (suc r.0) p && leb (suc r.0) s && leb (suc r.0) x && leb (suc r.0) y) }
{
    r.0 < p.min(s).min(x).min(y) as u64
}
