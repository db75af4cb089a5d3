// The field of q elements on coefficients below q.
#![tactic(auto)]

ghost use Rattle.base_field.specs.Numbers.{AreField};

// The largest number of 32 bits.
const LARGEST: u32 = 4294967295;

// How many numbers have 32 bits.
const RANGE: u64 = 4294967296;

// The field of q elements, with what takes the place of a division by q: (2³² − 1) div q.
#[derive(Clone, Copy)]
pub struct Field {
    pub q: u32,
    pub reciprocal: u32,
    // q is an odd prime below 4,096.
    pub ghost is_field: { AreField q reciprocal },
}

impl Field {
    ghost use Rattle.std.specs.Prelude.{◌≡◌, ◌/◌, ◌%◌, ◌<◌};
    ghost use Rattle.spec_arithmetic.specs.Field.{prime};
    ghost use Rattle.spec_fields.specs.Named.{IsField};
    ghost use Rattle.base_field.specs.Named.{ops, Ok, largest};

    // What takes the place of a division by q.
    pub fn reciprocal_of(q: u32) -> u32
        requires { 0 < q }
        ensures { result ≡ largest / q }
    {
        LARGEST / q
    }

    // The field of q elements.
    pub fn new(q: u32) -> Self
        requires { IsField (prime q) }
        ensures { result.q ≡ q }
    {
        Field {
            q,
            reciprocal: Self::reciprocal_of(q),
        }
    }

    // x modulo q, by a product with the reciprocal in place of a division: its upper half is the quotient of x by
    // q or one less.
    pub fn reduce(self, x: u32) -> u32
        ensures { result ≡ x % self.q }
    {
        let k = (x as u64 * self.reciprocal as u64 / RANGE) as u32;
        let r = x - k * self.q;
        if r < self.q { r } else { r - self.q }
    }

    // a + b.
    pub fn add(self, a: u32, b: u32) -> u32
        requires { Ok self a × Ok self b }
        ensures { result ≡ (ops self).add a b }
    {
        let sum = a + b;
        if sum < self.q { sum } else { sum - self.q }
    }

    // a − b.
    pub fn sub(self, a: u32, b: u32) -> u32
        requires { Ok self a × Ok self b }
        ensures { result ≡ (ops self).sub a b }
    {
        if b <= a { a - b } else { a + (self.q - b) }
    }

    // −a.
    pub fn neg(self, a: u32) -> u32
        requires { Ok self a }
        ensures { result ≡ (ops self).sub 0 a }
    {
        self.sub(0, a)
    }

    // a·b.
    pub fn mul(self, a: u32, b: u32) -> u32
        requires { Ok self a × Ok self b }
        ensures { result ≡ (ops self).mul a b }
    {
        a * b % self.q
    }

    // The inverse of a, and 0 for 0: 1/a is −(q div a) times 1/(q mod a).
    pub fn inverse(self, a: u32) -> u32
        requires { Ok self a }
        ensures { result ≡ (ops self).inv a }
    {
        let q = self.q;
        if a <= 1 {
            a
        } else {
            (q - q / a) * self.inverse(q % a) % q
        }
    }
}
