// Products, divisions and greatest common divisors of sample polynomials, written out to be compared with
// values found by another program.
#![tactic(auto)]

pub mod operands;

ghost use Rattle.std.specs.Prelude.{◌+◌, ◌<◌, ◌≤◌};
ghost use Rattle.base_polynomial.specs.Whole.{Held};

use crate::operands::Operands;
use base_field::Field;
use base_places::linear::top;
use base_polynomial::Poly;
use std::io;

// n coefficients from a linear congruence that starts at `seed`.
fn sample(f: Field, seed: u32, n: usize) -> Poly
    requires { (seed < 65537) × (n ≤ 65) }
    ensures { Held f result × (result.size ≤ n) }
{
    let mut c = [0u32; 129];
    let mut s = seed;
    for i in 0..n {
        s = (s * 75 + 74) % 65537;
        c[i] = f.reduce(s);
    }
    Poly {
        c,
        size: top(&c, n),
    }
}

// Of sample polynomials of m and n places, alone and times a third one of 9.
fn samples(rt: &impl Print, f: Field, m: usize, n: usize, seed: u32) -> io::Result<()>
    requires { (m ≤ 65) × (n ≤ 65) × (seed < 1000) }
{
    let operands = Operands {
        f,
        a: sample(f, seed, m),
        b: sample(f, seed + 1, n),
    };
    let c = sample(f, seed + 2, 9);
    operands.show_product(rt)?;
    operands.show_division(rt)?;
    operands.show_gcd(rt)?;
    operands.times(&c).show_gcd(rt)
}

fn run(rt: &impl Print, q: u32, m: usize, n: usize, seed: u32) -> io::Result<()>
    requires { (m ≤ 65) × (n ≤ 65) × (seed < 1000) }
{
    if base_primes::is_odd_prime(q) {
        samples(rt, Field::new(q), m, n, seed)?;
    }
    Ok(())
}

fn main(rt: HostRuntime) -> io::Result<()> {
    run(&rt, 3, 9, 5, 1)?;
    run(&rt, 7, 20, 8, 2)?;
    run(&rt, 101, 33, 33, 3)?;
    run(&rt, 4093, 65, 33, 4)?;
    run(&rt, 4093, 33, 65, 5)?;
    run(&rt, 5, 6, 0, 6)?;
    run(&rt, 4091, 0, 4, 7)?;
    run(&rt, 61, 1, 1, 8)
}
