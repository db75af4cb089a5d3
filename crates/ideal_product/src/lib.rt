// The product of two ideals: S by one or two greatest common divisors, Q = Q_1·Q_2/S², and P modulo Q.
#![tactic(auto)]

ghost use Rattle.ideal_operand.specs.Ideal.{Operand, Multiplied};

use base_euclid::bezout::first_factor;
use base_ideal::Ideal;
use base_polynomial::Poly;
use base_surd::Surd;
use ideal_coprime::coprime;
use ideal_shared::shared;

// `common` becomes S and z becomes (Q, P) of the product of x, (Q_1, P_1), and y, (Q_2, P_2). Most often Q_1 and Q_2
// have no common factor: then S is 1 without a second greatest common divisor.
pub fn product(s: &Surd, x: &Ideal, y: &Ideal, common: &mut Poly, z: &mut Ideal)
    requires { Operand s.now x.now × Operand s.now y.now }
    ensures { Multiplied s.now x.now y.now common.new z.new }
{
    let mut a = x.q;
    let mut b = y.q;
    let mut u = Poly::zero();
    first_factor(s.field, &mut a, &mut b, common, &mut u);
    if common.size == 1 {
        coprime(s.field, x, y, &u, z);
    } else {
        let mut h = *common;
        shared(s, x, y, &mut h, &u, common, z);
    }
}
