// Sums, differences, multiples and the derivative, place by place.
// A function `.._places` works on arrays whose places from n on are 0 and fills the array z.
ghost use Rattle.std.specs.Prelude.{◌≡◌, ℕ, ◌+◌, ◌<◌, ◌≤◌, get_or};
ghost use Rattle.base_places.specs.Places.{Places, Within, Top, FilledBy};
ghost use Rattle.base_field.specs.Named.{name, ops, Ok};

use base_field::Field;

// The size: the places from `from` on are 0.
pub fn top(c: &[u32; 129], from: usize) -> usize
    requires from_bound { from ≤ 129 }
    requires by_index { (i : ℕ) → from ≤ i → get_or c.now i 0 ≡ 0 }
    ensures { Top c.now result }
{
    for n in (0..from).rev() {
        if c[n] != 0 {
            return n + 1;
        }
    }
    0
}

// z becomes what `place` says at each place below n, and 0 from there on.
pub fn fill_places<F: Fn(usize) -> u32>(n: usize, place: F, z: &mut [u32; 129])
    requires n_bound { n ≤ 129 }
    requires called { (i : ℕ) → i < n → F.pre place i }
    ensures { FilledBy (F.post place) n z.new }
{
    *z = [0u32; 129];
    for i in 0..n {
        z[i] = place(i);
    }
}

// z becomes x + y.
pub fn add_places(f: Field, x: &[u32; 129], y: &[u32; 129], n: usize, z: &mut [u32; 129])
    requires n_bound { n ≤ 129 }
    requires within { Within (name f) x.now n × Within (name f) y.now n }
    ensures { Places z.new (λ i. (ops f).add (get_or x.now i 0) (get_or y.now i 0)) }
{
    fill_places(n, |i| f.add(x[i], y[i]), z);
}

// z becomes x − y.
pub fn sub_places(f: Field, x: &[u32; 129], y: &[u32; 129], n: usize, z: &mut [u32; 129])
    requires n_bound { n ≤ 129 }
    requires within { Within (name f) x.now n × Within (name f) y.now n }
    ensures { Places z.new (λ i. (ops f).sub (get_or x.now i 0) (get_or y.now i 0)) }
{
    fill_places(n, |i| f.sub(x[i], y[i]), z);
}

// z becomes k·x.
pub fn scale_places(f: Field, k: u32, x: &[u32; 129], n: usize, z: &mut [u32; 129])
    requires n_bound { (n ≤ 129) × Ok f k }
    requires within { Within (name f) x.now n }
    ensures { Places z.new (λ i. (ops f).mul k (get_or x.now i 0)) }
{
    fill_places(n, |i| f.mul(k, x[i]), z);
}

// z becomes the derivative of x: at i the coefficient at i + 1, times i + 1.
pub fn derivative_places(f: Field, x: &[u32; 129], n: usize, z: &mut [u32; 129])
    requires n_bound { n ≤ 129 }
    requires within { Within (name f) x.now n }
    ensures { Places z.new (λ i. (ops f).mul (i + 1) (get_or x.now (i + 1) 0)) }
{
    fill_places(
        n.saturating_sub(1),
        |i| f.reduce((i + 1) as u32 * x[i + 1]),
        z,
    );
}
