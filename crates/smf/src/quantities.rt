// Numbers of fixed size, the high byte first, and variable-length quantities.
ghost use Rattle.std.specs.Prelude.{◌≡◌, ◌+◌, ◌*◌, ◌<◌, ◌≤◌};
ghost use Rattle.smf.specs.Quantities.{two_at, three_at, four_at, quantity_at};
ghost use Rattle.smf.specs.Internal.Quantities.{value_of};

use crate::Quantity;

// Two bytes, the high one first.
fn pair(high: u8, low: u8) -> u16
    ensures { result ≡ high * 256 + low }
{
    (high as u16) * 256 + (low as u16)
}

// A number of two bytes at a place.
pub fn two_at(b: &[u8], at: usize) -> u16
    requires { at ≤ 8589934592 }
    ensures { result ≡ two_at b.now at }
{
    pair(arith::byte(b, at), arith::byte(b, at + 1))
}

// A pair and a byte behind it.
fn triple(high: u16, low: u8) -> u32
    ensures { result ≡ high * 256 + low }
{
    (high as u32) * 256 + (low as u32)
}

// A number of three bytes at a place.
pub fn three_at(b: &[u8], at: usize) -> u32
    requires { at ≤ 4294967296 }
    ensures { result ≡ three_at b.now at }
{
    triple(two_at(b, at), arith::byte(b, at + 2))
}

// Two pairs, the high one first.
fn quad(high: u16, low: u16) -> u32
    ensures { result ≡ high * 65536 + low }
{
    (high as u32) * 65536 + (low as u32)
}

// A number of four bytes at a place.
pub fn four_at(b: &[u8], at: usize) -> u32
    requires { at ≤ 4294967296 }
    ensures { result ≡ four_at b.now at }
{
    quad(two_at(b, at), two_at(b, at + 2))
}

// The quantity at a place, of at most four bytes in front of the edge.
pub fn quantity_at(b: &[u8], edge: u32, at: u32) -> Option<Quantity>
    ensures { (result ≡ quantity_at b.now edge at) × (value_of result < 268435456) }
{
    let mut value: u32 = 0;
    let mut p = at;
    for n in 0..4u32 {
        if edge <= p {
            return None;
        }
        let x = arith::byte(b, p as usize);
        if x < 128 {
            return Some(Quantity {
                value: value * 128 + (x as u32),
                behind: p + 1,
            });
        }
        value = value * 128 + ((x - 128) as u32);
        p += 1;
    }
    None
}
