// The same product or giant step of two ideals, made again and again.
ghost use Rattle.std.specs.Prelude.{◌≡◌, ◌<◌};
ghost use Rattle.base_polynomial.specs.declared.Poly.{Poly};
ghost use Rattle.base_ideal.specs.declared.Ideal.{Ideal};
ghost use Rattle.ideal_operand.specs.Ideal.{Operand, Multiplied};
ghost use Rattle.ideal_giant.specs.declared.Shift.{Shift};
ghost use Rattle.ideal_giant.specs.Stepped.{Stepped};

use base_counters::Distance;
use base_ideal::Ideal;
use base_polynomial::Poly;
use base_surd::Surd;
use call_product::IdealProduct;
use ideal_giant::step::giant;
use ideal_product::product;
use walk_state::root::Root;

// `turn` is called `times` times over, each with the same room.
fn repeat<T, F: Fn(&mut T)>(times: u64, room: &mut T, turn: F)
    requires { F.IsAlwaysCallable turn }
    ensures none { times ≡ 0 → room.new ≡ room.old }
    ensures some { 0 < times → (before : _) × (after : _) × F.post turn before tt after × (after.now ≡ room.new) }
{
    for _ in 0..times {
        turn(room);
    }
}

// The size of the P of the product, made `times` times over; 0 for no turns.
pub fn products(s: &Surd, x: &Ideal, y: &Ideal, times: u64) -> u64
    requires { Operand s.now x.now × Operand s.now y.now }
    ensures none { times ≡ 0 → result ≡ 0 }
    ensures some { 0 < times → (common : Poly) × (z : Ideal) × Multiplied s.now x.now y.now common z × (result ≡ z.p.size) }
{
    let mut room = IdealProduct {
        s: Poly::zero(),
        ideal: Ideal::zeros(),
    };
    repeat(
        times,
        &mut room,
        |room| product(s, x, y, &mut room.s, &mut room.ideal),
    );
    room.ideal.p.size as u64
}

// The size of the P of the giant step, made `times` times over; 0 for no turns.
pub fn giants(s: &Surd, x: &Ideal, y: &Ideal, times: u64) -> u64
    requires { Operand s.now x.now × Operand s.now y.now }
    ensures none { times ≡ 0 → result ≡ 0 }
    ensures some { 0 < times → (z : Ideal) × (to : Shift) × Stepped s.now x.now 0 y.now 0 z to × (result ≡ z.p.size) }
{
    let r = Root::new(s);
    let mut room = Ideal::zeros();
    repeat(times, &mut room, |room| {
        giant(&r, x, Distance(0), y, Distance(0), room);
    });
    room.p.size as u64
}
