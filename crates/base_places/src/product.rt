// Products: each coefficient is a sum of products over the places that both factors have, reduced once.
ghost use Rattle.std.specs.Prelude.{◌≡◌, ◌+◌, ◌<◌, ◌≤◌, get_or};
ghost use Rattle.spec_arithmetic.specs.Polynomials.{mul as mul_of};
ghost use Rattle.spec_bridge.specs.Product.{shifted};
ghost use Rattle.base_places.specs.Places.{Places, Within};
ghost use Rattle.base_places.specs.Terms.{Terms};
ghost use Rattle.base_field.specs.Named.{name, ops};

use crate::linear::fill_places;
use base_field::Field;

// The place before k, 0 where there is none.
pub fn below(b: &[u32; 129], k: usize) -> u32
    requires { k < 129 }
    ensures { result ≡ shifted b.now 1 k }
{
    if 0 < k { b[k - 1] } else { 0 }
}

// The coefficient at k of x, of m places, times y, of n places, as a sum that is not reduced. 129·4,095² is
// below 2³².
pub fn terms(f: Field, x: &[u32; 129], y: &[u32; 129], k: usize, m: usize, n: usize) -> u32
    requires k_bound { (k < 129) × (m ≤ 129) }
    requires within { Within (name f) x.now m × Within (name f) y.now n }
    ensures { Terms (name f) x.now y.now k result }
{
    let mut sum: u32 = 0;
    for i in (k + 1).saturating_sub(n)..m.min(k + 1) {
        sum += x[i] * y[k - i];
    }
    sum
}

// The coefficient at k of x, of m places, times y, of n places.
pub fn dot(f: Field, x: &[u32; 129], y: &[u32; 129], k: usize, m: usize, n: usize) -> u32
    requires k_bound { (k < 129) × (m ≤ 129) }
    requires within { Within (name f) x.now m × Within (name f) y.now n }
    ensures { result ≡ get_or (mul_of (ops f) x.now y.now) k 0 }
{
    f.reduce(terms(f, x, y, k, m, n))
}

// z becomes x, of m places, times y, of n places.
pub fn mul_places(f: Field, x: &[u32; 129], y: &[u32; 129], m: usize, n: usize, z: &mut [u32; 129])
    requires m_bound { (m ≤ 129) × (n ≤ 129) × (m + n ≤ 130) }
    requires within { Within (name f) x.now m × Within (name f) y.now n }
    ensures { Places z.new (λ i. get_or (mul_of (ops f) x.now y.now) i 0) }
{
    fill_places((m + n).saturating_sub(1), |k| dot(f, x, y, k, m, n), z);
}
