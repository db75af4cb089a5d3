// The table of inverses and the root d of D.
ghost use Rattle.std.specs.Prelude.{◌≡◌, ℕ, ◌+◌, ◌<◌, ◌≤◌, get_or};
ghost use Rattle.spec_arithmetic.specs.Polynomials.{pad, mul as mul_of, root as root_at};
ghost use Rattle.base_field.specs.Named.{name, ops};
ghost use Rattle.base_places.specs.Places.{Within};
ghost use Rattle.base_surd.specs.Surd as surds;
ghost use Rattle.walk_step.specs.Step.{Inverses};
ghost use Rattle.walk_state.specs.State.{root_d};

use base_field::Field;
use base_places::product::dot;
use base_surd::Surd;

// inverses[a] becomes the inverse of a, for each a below q: 1/a is −(q div a) times 1/(q mod a), which stands
// in the table already.
pub fn fill_inverses(f: Field, inverses: &mut [u32; 4096])
    ensures { Inverses (name f) inverses.new }
{
    *inverses = [0u32; 4096];
    inverses[1] = 1;
    let q = f.q;
    for a in 2..q {
        inverses[a as usize] = (q - q / a) * inverses[(q % a) as usize] % q;
    }
}

// The coefficient of x^e in the root of D, of degree h: half of the coefficient of D − d² at e + h, where d
// has the coefficients above it.
fn coefficient(f: Field, h: usize, e: usize, radicand: &[u32; 129], d: &[u32; 129]) -> u32
    requires e_lt_h { (e < h) × (h ≤ 64) }
    requires by_index { (i : ℕ) → get_or radicand.now i 0 < f.q }
    requires within { Within (name f) d.now (h + 1) }
    ensures { result ≡ (ops f).mul ((ops f).sub (get_or radicand.now (e + h) 0) (get_or (mul_of (ops f) d.now d.now) (e + h) 0)) ((ops f).inv 2) }
{
    let square = dot(f, d, d, e + h, h + 1, h + 1);
    let rest = f.sub(radicand[e + h], square);
    f.mul(rest, f.inverse(2))
}

// d becomes the root of D, of degree h, from the top coefficient down; D stands in `radicand`.
pub fn root(f: Field, h: usize, radicand: &[u32; 129], d: &mut [u32; 129])
    requires h_bound { h ≤ 64 }
    requires by_index { (i : ℕ) → get_or radicand.now i 0 < f.q }
    ensures { d.new ≡ pad (ops f) 129 (root_at (ops f) radicand.now h) }
{
    *d = [0u32; 129];
    d[h] = 1;
    for e in (0..h).rev() {
        d[e] = coefficient(f, h, e, radicand, d);
    }
}

// d becomes the root of D.
pub fn root_of(s: &Surd, d: &mut [u32; 129])
    ensures { d.new ≡ pad (surds.ops s.now) 129 (root_d (surds.name s.now) (surds.g s.now) (surds.D s.now)) }
{
    root(s.field, s.n / 2, &s.radicand.c, d);
}
