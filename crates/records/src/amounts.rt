// All amounts of a zone in one pass.
ghost use Rattle.std.specs.Prelude.{◌≡◌, ◌≤◌};
ghost use Rattle.arith.specs.Within.{Within};
ghost use Rattle.records.specs.Internal.Amounts.{poured};
ghost use Rattle.records.specs.Sides.{operator};

use crate::{Side, Zone, amount};
use arith::{signed16, u16_at};

// The operator of generator g.
pub fn operator(b: &[u8], s: Side, g: usize) -> u16
    requires { g ≤ 8589934592 }
    ensures { result ≡ operator b.now s g }
{
    u16_at(b, (s.gens as usize) + 4 * g)
}

// Each generator of the zone that counts, in order, stores its amount at its operator, over d.
pub fn poured(b: &[u8], s: Side, z: Zone, d: [i16; 61]) -> [i16; 61]
    ensures { result ≡ poured b.now s z d }
{
    let mut a = d;
    let from = z.from as usize;
    let count = z.count as usize;
    for n in 0..count {
        let o = operator(b, s, from + n) as usize;
        if o < 61 {
            a[o] = signed16(amount(b, s, from + n));
        }
    }
    a
}

// A value, widened so that sums of values fit.
pub fn wide(x: i16) -> i64
    ensures { (result ≡ x) × Within result 32768 }
{
    x as i64
}
