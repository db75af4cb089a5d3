// The unit p + s·√D in lent lists: p and s, with two work lists of the same size.
ghost use Rattle.std.specs.Prelude.{◌≡◌, ℕ, ◌+◌};
ghost use Rattle.spec_definitions.specs.Units.{unit_lists};
ghost use Rattle.base_surd.specs.Surd.{ticket_with};
ghost use Rattle.unit_room.specs.Room.{Room, lists};

use unit_monic::divide_by_lead;
use unit_recurrence::steps::steps;
use unit_zeros::start_lists;
use walk_run::FoundWalk;

// The unit: p_{m−1} and s_{m−1} over the leading coefficient of p_{m−1}, whose degree is r. p and s receive
// its coefficients in their places 0 to r, where x and y end as zero. Later places are as they were.
pub fn write_unit(w: &FoundWalk, p: &mut [u32], s: &mut [u32], x: &mut [u32], y: &mut [u32])
    requires { Room (w.now.r.0 + 1) p.old s.old x.old y.old }
    ensures { (b : ℕ) → lists p.new s.new x.new y.new ≡ unit_lists (ticket_with w.now.walk.now.root.surd b) w.now.r.0 w.now.m.0 (lists p.old s.old x.old y.old) }
{
    let count = w.r.0 as usize + 1;
    let p = &mut p[..count];
    let s = &mut s[..count];
    let x = &mut x[..count];
    let y = &mut y[..count];
    start_lists(w.m, p, s, x, y);
    steps(w, p, s, x, y);
    divide_by_lead(w.walk.root.surd.field, p, s);
    x.fill(0);
    y.fill(0);
}
