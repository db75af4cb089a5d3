// An ideal as two polynomials (Q, P), made so that Q is monic and P is reduced modulo Q.
#![tactic(auto)]

ghost use Rattle.std.specs.Prelude.{◌<◌, ◌≤◌};
ghost use Rattle.spec_arithmetic.specs.Polynomials.{sub as sub_of, rem as rem_of, monic as monic_of};
ghost use Rattle.base_field.specs.Named.{name, ops};
ghost use Rattle.base_places.specs.Places.{Within};
ghost use Rattle.base_polynomial.specs.Whole.{poly, Held, Is};

use base_division::division::remainder;
use base_field::Field;
use base_places::linear::{sub_places, top};
use base_polynomial::Poly;
use base_polynomial::ring::monic;

// An ideal (Q, P): Q, its norm, divides D − P².
#[derive(Clone, Copy)]
pub struct Ideal {
    pub q: Poly,
    pub p: Poly,
}

impl Ideal {
    ghost use Rattle.std.specs.Prelude.{[]};
    ghost use Rattle.base_polynomial.specs.Whole.{Holds};

    // Two zero polynomials, for a function to fill.
    pub fn zeros() -> Self
        ensures { Holds result.q [] × Holds result.p [] }
    {
        Ideal {
            q: Poly::zero(),
            p: Poly::zero(),
        }
    }
}

// z becomes x − y, of at most n places.
fn difference(f: Field, x: &[u32; 129], y: &[u32; 129], n: usize, z: &mut Poly)
    requires n_bound { n ≤ 129 }
    requires within { Within (name f) x.now n × Within (name f) y.now n }
    ensures { Is f z.new (sub_of (ops f) x.now y.now) }
{
    sub_places(f, x, y, n, &mut z.c);
    z.size = top(&z.c, n);
}

// Q of z becomes a over its leading coefficient, and P its remainder by that.
pub fn normal(f: Field, a: &Poly, z: &mut Ideal)
    requires some { 0 < a.now.size }
    requires held { Held f a.now × Held f z.old.p }
    ensures q { Is f z.new.q (monic_of (ops f) (poly a.now)) }
    ensures p { Is f z.new.p (rem_of (ops f) (poly z.old.p) (monic_of (ops f) (poly a.now))) }
{
    monic(f, a, &mut z.q);
    remainder(f, &mut z.p, &z.q);
}

// z becomes the ideal whose Q is `current` and whose P is d − rest, each of at most `places` places: Q over its leading
// coefficient, P modulo that.
pub fn ideal_of(
    f: Field,
    d: &[u32; 129],
    places: usize,
    current: &Poly,
    rest: &[u32; 129],
    z: &mut Ideal,
)
    requires sizes { (0 < current.now.size) × (places ≤ 129) }
    requires held { Held f current.now × Within (name f) d.now places × Within (name f) rest.now places }
    ensures q { Is f z.new.q (monic_of (ops f) (poly current.now)) }
    ensures p { Is f z.new.p (rem_of (ops f) (sub_of (ops f) d.now rest.now) (monic_of (ops f) (poly current.now))) }
{
    difference(f, d, rest, places, &mut z.p);
    normal(f, current, z);
}
