// Fields of sample headers (shdr) and preset headers (phdr).
ghost use Rattle.std.specs.Prelude.{◌≡◌, ◌+◌, ◌≤◌};
ghost use Rattle.std.specs.Int.{w8};
ghost use Rattle.std.proofs.Common.{to_z};
ghost use Rattle.arith.specs.Bytes.{u8_at, u32_at, i8_at};
ghost use Rattle.records.specs.Headers.{sample_at, program_of, bank_of, rate_of, rom_of};

use crate::{Parts, times};
use arith::{byte, u16_at, u32_at};

// Where a field of sample k stands.
fn field_at(m: Parts, k: u32, offset: u8) -> usize
    ensures { (result ≡ sample_at m k + offset) × (result ≤ 2199023255552) }
{
    (m.samples as usize) + 46 * (k as usize) + (offset as usize)
}

// The place (start, end, loop start or loop end) at an offset of the header of sample k.
pub fn place_of(b: &[u8], m: Parts, k: u32, offset: u8) -> u32
    ensures { result ≡ u32_at b.now (sample_at m k + offset) }
{
    u32_at(b, field_at(m, k, offset))
}

// The sample rate of sample k.
pub fn rate_of(b: &[u8], m: Parts, k: u32) -> u32
    ensures { result ≡ rate_of b.now m k }
{
    u32_at(b, field_at(m, k, 36))
}

// Header type bit 15 says ROM.
pub fn rom_of(b: &[u8], m: Parts, k: u32) -> bool
    ensures { result ≡ rom_of b.now m k }
{
    !(u16_at(b, field_at(m, k, 44)) < 32768)
}

// The root as the header has it.
pub fn root_byte(b: &[u8], m: Parts, k: u32) -> u8
    ensures { result ≡ u8_at b.now (sample_at m k + 40) }
{
    byte(b, field_at(m, k, 40))
}

// The 8 bits of v as two's complement.
fn signed8(v: u8) -> i8
    ensures { result ≡ to_z w8 v }
{
    if v < 128 {
        v as i8
    } else {
        (v as i16 - 256) as i8
    }
}

// The correction of the pitch, in cents.
pub fn correction_of(b: &[u8], m: Parts, k: u32) -> i8
    ensures { result ≡ i8_at b.now (sample_at m k + 41) }
{
    signed8(byte(b, field_at(m, k, 41)))
}

// The program of preset h.
pub fn program_of(b: &[u8], m: Parts, h: u32) -> u16
    ensures { result ≡ program_of b.now m h }
{
    let p = m.presets;
    u16_at(b, (p.heads as usize) + times(p.width, h as usize) + 20)
}

// The bank of preset h.
pub fn bank_of(b: &[u8], m: Parts, h: u32) -> u16
    ensures { result ≡ bank_of b.now m h }
{
    let p = m.presets;
    u16_at(b, (p.heads as usize) + times(p.width, h as usize) + 22)
}
