// Two polynomials over a field, and what is written out of them.
ghost use Rattle.base_polynomial.specs.Whole.{Held};

use base_division::division::{quotient, remainder};
use base_euclid::bezout::bezout;
use base_euclid::gcd::gcd;
use base_field::Field;
use base_polynomial::Poly;
use base_polynomial::ring::multiply;
use std::io;

// The coefficients in one line, constant term first.
fn show(rt: &impl Print, p: &Poly) -> io::Result<()> {
    for coefficient in p.c.iter().take(p.size) {
        print!(rt; "{coefficient} ")?;
    }
    println!(rt; "")
}

#[derive(Clone, Copy)]
pub struct Operands {
    pub f: Field,
    pub a: Poly,
    pub b: Poly,
    pub ghost held: { Held f a × Held f b },
}

impl Operands {
    ghost use Rattle.std.specs.Prelude.{◌+◌, ◌<◌, ◌≤◌};
    ghost use Rattle.base_polynomial.specs.Whole.{Held};

    pub fn show_product(&self, rt: &impl Print) -> io::Result<()>
        requires { self.now.a.size + self.now.b.size ≤ 130 }
    {
        let mut z = Poly::zero();
        multiply(self.f, &self.a, &self.b, &mut z);
        show(rt, &z)
    }

    // Quotient and remainder where b is not 0.
    fn show_quotient(&self, rt: &impl Print) -> io::Result<()>
        requires { 0 < self.now.b.size }
    {
        let mut z = Poly::zero();
        quotient(self.f, &self.a, &self.b, &mut z);
        show(rt, &z)?;
        let mut rest = self.a;
        remainder(self.f, &mut rest, &self.b);
        show(rt, &rest)
    }

    // Quotient and remainder; by 0 they are 0 and a.
    pub fn show_division(&self, rt: &impl Print) -> io::Result<()> {
        if self.b.size == 0 {
            show(rt, &Poly::zero())?;
            show(rt, &self.a)
        } else {
            self.show_quotient(rt)
        }
    }

    // The greatest common divisor. Euclid's algorithm uses up what it is lent, so copies are lent.
    fn show_divisor(&self, rt: &impl Print) -> io::Result<()> {
        let mut x = self.a;
        let mut y = self.b;
        let mut g = Poly::zero();
        gcd(self.f, &mut x, &mut y, &mut g);
        show(rt, &g)
    }

    // The same with Bezout's factors.
    fn show_factors(&self, rt: &impl Print) -> io::Result<()> {
        let mut x = self.a;
        let mut y = self.b;
        let mut g = Poly::zero();
        let mut u = Poly::zero();
        let mut v = Poly::zero();
        bezout(self.f, &mut x, &mut y, &mut g, &mut u, &mut v);
        show(rt, &g)?;
        show(rt, &u)?;
        show(rt, &v)
    }

    // The greatest common divisor, alone and with its factors.
    pub fn show_gcd(&self, rt: &impl Print) -> io::Result<()> {
        self.show_divisor(rt)?;
        self.show_factors(rt)
    }

    // Both times a third polynomial.
    pub fn times(&self, c: &Poly) -> Operands
        requires fits { (self.now.a.size + c.now.size ≤ 130) × (self.now.b.size + c.now.size ≤ 130) }
        requires held { Held self.now.f c.now }
    {
        let f = self.f;
        let mut a = Poly::zero();
        let mut b = Poly::zero();
        multiply(f, &self.a, c, &mut a);
        multiply(f, &self.b, c, &mut b);
        Operands { f, a, b }
    }
}
