// The giant step: the product of two ideals, reduced, with f and the distance.
ghost use Rattle.std.specs.Prelude.{◌≡◌, ◌+◌, ◌-◌, ◌<◌, ◌≤◌, pos, ◌-ℤ◌};
ghost use Rattle.ideal_operand.specs.Ideal.{Operand};
ghost use Rattle.ideal_giant.specs.Signed.{farthest, two_distances};
ghost use Rattle.ideal_giant.specs.Stepped.{Stepped};

use crate::Shift;
use base_counters::Distance;
use base_ideal::Ideal;
use base_polynomial::Poly;
use ideal_product::product;
use ideal_reduce::reduce;
use walk_state::root::Root;

// total − lower.
fn signed(total: u64, lower: u64) -> i64
    requires { (total ≤ two_distances) × (lower ≤ two_distances) }
    ensures { result ≡ pos total -ℤ pos lower }
{
    total as i64 - lower as i64
}

// deg Q + deg S − deg Q_k − sum, from the sizes of Q, S and Q_k.
fn lower(q: usize, s: usize, last: usize, sum: u64) -> u64
    requires { (q ≤ 129) × (0 < s) × (s ≤ 129) × (last + sum ≤ q) }
    ensures { result ≡ (q - last - sum) + (s - 1) }
{
    (q - last + s - 1) as u64 - sum
}

// z becomes the giant step of x and y, whose distances are d1 and d2.
pub fn giant(r: &Root, x: &Ideal, d1: Distance, y: &Ideal, d2: Distance, z: &mut Ideal) -> Shift
    requires operands { Operand r.now.surd x.now × Operand r.now.surd y.now }
    requires distances { (d1.0 ≤ farthest) × (d2.0 ≤ farthest) }
    ensures { Stepped r.now.surd x.now d1.0 y.now d2.0 z.new result }
{
    let mut s = Poly::zero();
    let mut a = Ideal::zeros();
    product(&r.surd, x, y, &mut s, &mut a);
    let size = a.q.size;
    let sum = reduce(r, &mut a, z);
    let less = lower(size, s.size, z.q.size, sum);
    Shift {
        f: signed(0, less),
        distance: signed(d1.0 + d2.0, less),
    }
}
