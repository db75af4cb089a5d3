// Which q are allowed: the odd primes below 4,096, found by division.
#![tactic(auto)]

ghost use Rattle.std.specs.Prelude.{◌≡◌};
ghost use Rattle.spec_arithmetic.specs.Primes.{odd_prime};

// 2¹²: every q that is allowed is below it.
const BOUND: u32 = 4096;

// The root of that, where the loop ends at the latest: a composite number below 2¹² has a divisor from 2 up and
// below 2⁶.
const ROOT: u32 = 64;

// Whether q is an odd prime below 4,096: odd, from 3 up, and divided by no odd number from 3 up whose square is at
// most q.
pub fn is_odd_prime(q: u32) -> bool
    ensures { result ≡ odd_prime q }
{
    if !(3..BOUND).contains(&q) {
        return false;
    }
    if q % 2 == 0 {
        return false;
    }
    for k in 1..ROOT / 2 {
        let d = 2 * k + 1;
        if d * d > q {
            return true;
        }
        if q % d == 0 {
            return false;
        }
    }
    true
}
