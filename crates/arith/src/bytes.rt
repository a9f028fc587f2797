// Little-endian numbers among lent bytes; a byte past the end is 0.
ghost use Rattle.std.specs.Prelude.{◌≡◌, ◌+◌, ◌*◌, ◌≤◌};
ghost use Rattle.std.specs.Int.{w16};
ghost use Rattle.std.proofs.Common.{to_z};
ghost use Rattle.arith.specs.Bytes.{u8_at, u16_at, u32_at};

// A byte; 0 past the end.
pub fn byte(b: &[u8], at: usize) -> u8
    ensures { result ≡ u8_at b.now at }
{
    if at < b.len() {
        return b[at];
    }
    0
}

// Two bytes, the low one first.
fn pair(low: u8, high: u8) -> u16
    ensures { result ≡ low + high * 256 }
{
    (low as u16) + (high as u16) * 256
}

// A place is the sum of a 32-bit place and some 32-bit numbers times a record's size: at most 2^41.
pub fn u16_at(b: &[u8], at: usize) -> u16
    requires { at ≤ 2199023255552 }
    ensures { result ≡ u16_at b.now at }
{
    pair(byte(b, at), byte(b, at + 1))
}

// The 16 bits of v as two's complement.
pub fn signed16(v: u16) -> i16
    ensures { result ≡ to_z w16 v }
{
    if v < 32768 {
        v as i16
    } else {
        (v as i32 - 65536) as i16
    }
}

// Four bytes, the lowest first.
fn quad(a: u8, b: u8, c: u8, d: u8) -> u32
    ensures { result ≡ a + b * 256 + c * 65536 + d * 16777216 }
{
    (a as u32) + (b as u32) * 256 + (c as u32) * 65536 + (d as u32) * 16777216
}

// Four bytes of a bank as a number; the place is bounded as that of `u16_at`.
pub fn u32_at(b: &[u8], at: usize) -> u32
    requires { at ≤ 2199023255552 }
    ensures { result ≡ u32_at b.now at }
{
    quad(
        byte(b, at),
        byte(b, at + 1),
        byte(b, at + 2),
        byte(b, at + 3),
    )
}
