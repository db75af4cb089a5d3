// The difference v − w·u in place, with one reduction a coefficient.
ghost use Rattle.std.specs.Prelude.{◌≡◌, ◌+◌, ◌*◌, ◌-◌, ◌<◌, ◌≤◌, ◌%◌, get_or};
ghost use Rattle.spec_arithmetic.specs.Polynomials.{sub as sub_of, mul as mul_of};
ghost use Rattle.base_places.specs.Places.{Places, Within};
ghost use Rattle.base_field.specs.Named.{name, ops, Ok};
ghost use Rattle.base_polynomial.specs.Whole.{poly, Fits, Is};

use base_field::Field;
use base_places::linear::top;
use base_places::product::{below, terms};
use base_polynomial::Poly;

// One coefficient of v − w·u where w has two places, w0 and w1: x is the coefficient of u there, y the one
// before. Two products of 4,095² are below 2³².
fn less_two(f: Field, v: u32, w0: u32, w1: u32, x: u32, y: u32) -> u32
    requires { Ok f v × Ok f w0 × Ok f w1 × Ok f x × Ok f y }
    ensures { result ≡ (v + ((f.q - w0) * x + (f.q - w1) * y)) % f.q }
{
    let q = f.q;
    f.reduce(v + ((q - w0) * x + (q - w1) * y))
}

// The coefficient of v − w·u at i, where that of v is `from`.
fn rest_many(f: Field, from: u32, w: &Poly, u: &Poly, i: usize) -> u32
    requires i_bound { (i < 129) × Ok f from }
    requires fits { Fits f w.now × Within (name f) u.now.c u.now.size }
    ensures { result ≡ (ops f).sub from (get_or (mul_of (ops f) w.now.c u.now.c) i 0) }
{
    let product = f.reduce(terms(f, &w.c, &u.c, i, w.size, u.size));
    f.sub(from, product)
}

// The same where w has two places at most.
fn rest_two(f: Field, from: u32, w: &Poly, u: &Poly, i: usize) -> u32
    requires i_bound { (i < 129) × Ok f from × (w.now.size ≤ 2) }
    requires fits { Fits f w.now × Within (name f) u.now.c u.now.size }
    ensures { result ≡ (ops f).sub from (get_or (mul_of (ops f) w.now.c u.now.c) i 0) }
{
    less_two(f, from, w.c[0], w.c[1], u.c[i], below(&u.c, i))
}

// The same, by the shorter way where there is one.
pub fn rest_at(f: Field, from: u32, w: &Poly, u: &Poly, i: usize) -> u32
    requires i_bound { (i < 129) × Ok f from }
    requires fits { Fits f w.now × Within (name f) u.now.c u.now.size }
    ensures { result ≡ (ops f).sub from (get_or (mul_of (ops f) w.now.c u.now.c) i 0) }
{
    if w.size <= 2 {
        rest_two(f, from, w, u, i)
    } else {
        rest_many(f, from, w, u, i)
    }
}

// v becomes v − w·u, place by place, where neither v nor the product has places from n on.
fn subtract_many(f: Field, v: &mut [u32; 129], w: &Poly, u: &Poly, n: usize)
    requires n_bound { (n ≤ 129) × (w.now.size + u.now.size ≤ n + 1) }
    requires within { Within (name f) v.old n }
    requires fits { Fits f w.now × Fits f u.now }
    ensures { Places v.new (λ i. (ops f).sub (get_or v.old i 0) (get_or (mul_of (ops f) w.now.c u.now.c) i 0)) }
{
    for i in 0..n {
        v[i] = rest_many(f, v[i], w, u, i);
    }
}

// The same where w has two places at most, as most quotients have: in one pass, which keeps the coefficient
// of u at the place before.
fn subtract_two(f: Field, v: &mut [u32; 129], w: &Poly, u: &Poly, n: usize)
    requires n_bound { (n ≤ 129) × (w.now.size + u.now.size ≤ n + 1) × (w.now.size ≤ 2) }
    requires within { Within (name f) v.old n }
    requires fits { Fits f w.now × Fits f u.now }
    ensures { Places v.new (λ i. (ops f).sub (get_or v.old i 0) (get_or (mul_of (ops f) w.now.c u.now.c) i 0)) }
{
    let w0 = w.c[0];
    let w1 = w.c[1];
    let mut y: u32 = 0;
    for i in 0..n {
        let x = u.c[i];
        v[i] = less_two(f, v[i], w0, w1, x, y);
        y = x;
    }
}

// v becomes v − w·u.
pub fn subtract_product(f: Field, v: &mut Poly, w: &Poly, u: &Poly)
    requires places { w.now.size + u.now.size ≤ 130 }
    requires fits { Fits f v.old × Fits f w.now × Fits f u.now }
    ensures { Is f v.new (sub_of (ops f) (poly v.old) (mul_of (ops f) (poly w.now) (poly u.now))) }
{
    let n = v.size.max((w.size + u.size).saturating_sub(1));
    if w.size <= 2 {
        subtract_two(f, &mut v.c, w, u, n);
    } else {
        subtract_many(f, &mut v.c, w, u, n);
    }
    v.size = top(&v.c, n);
}
