// Presets and instruments, one text for both: where their lists are, and the indexes of a record.
ghost use Rattle.std.specs.Prelude.{◌≡◌, ◌*◌, ◌≤◌};
ghost use Rattle.records.specs.Chunks.{chunk_at};
ghost use Rattle.records.specs.Sides.{bag_of, gen_of, mod_of, presets, instruments, parts_of};

use crate::chunks::body;
use crate::{Parts, Side, records_in};
use arith::u16_at;

// The bag index of head h.
pub fn bag_of(b: &[u8], s: Side, h: usize) -> u16
    requires { h ≤ 4294967296 }
    ensures { result ≡ bag_of b.now s h }
{
    u16_at(
        b,
        (s.heads as usize) + times(s.width, h) + (s.index as usize),
    )
}

// The generator index of bag z.
pub fn gen_of(b: &[u8], s: Side, z: usize) -> u16
    requires { z ≤ 4294967296 }
    ensures { result ≡ gen_of b.now s z }
{
    u16_at(b, (s.bags as usize) + 4 * z)
}

// The modulator index of bag z.
pub fn mod_of(b: &[u8], s: Side, z: usize) -> u16
    requires { z ≤ 4294967296 }
    ensures { result ≡ mod_of b.now s z }
{
    u16_at(b, (s.bags as usize) + 4 * z + 2)
}

// The lists of presets: heads of 38 bytes with the bag index at 24, and 41 to name an instrument.
pub fn presets(b: &[u8]) -> Side
    requires { chunk_at b.now 9 ≤ 65536 }
    ensures { result ≡ presets b.now }
{
    Side {
        heads: body(b, 0),
        width: 38,
        index: 24,
        nheads: records_in(b, 0),
        bags: body(b, 1),
        nbags: records_in(b, 1),
        nmods: records_in(b, 2),
        gens: body(b, 3),
        ngens: records_in(b, 3),
        nlinks: records_in(b, 4),
        closing: 41,
    }
}

// The lists of instruments: heads of 22 bytes with the bag index at 20, and 53 to name a sample.
pub fn instruments(b: &[u8]) -> Side
    requires { chunk_at b.now 9 ≤ 65536 }
    ensures { result ≡ instruments b.now }
{
    Side {
        heads: body(b, 4),
        width: 22,
        index: 20,
        nheads: records_in(b, 4),
        bags: body(b, 5),
        nbags: records_in(b, 5),
        nmods: records_in(b, 6),
        gens: body(b, 7),
        ngens: records_in(b, 7),
        nlinks: records_in(b, 8),
        closing: 53,
    }
}

// Where all lists of a bank are.
pub fn parts_of(b: &[u8]) -> Parts
    requires { chunk_at b.now 9 ≤ 65536 }
    ensures { result ≡ parts_of b.now }
{
    Parts {
        presets: presets(b),
        instruments: instruments(b),
        samples: body(b, 8),
    }
}

// A record's size times its number.
pub fn times(size: u8, n: usize) -> usize
    requires { n ≤ 4294967296 }
    ensures { (result ≡ size * n) × (result ≤ 1095216660480) }
{
    (size as usize) * n
}
