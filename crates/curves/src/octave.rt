// The octave table, and how cents and timecents come to a place in it.
ghost use Rattle.std.specs.Prelude.{◌+◌, ◌%◌, ◌≤◌, pos, neg_ℤ, nat_abs, ◌+ℤ◌, get_or, ◌≡◌};
ghost use Rattle.arith.specs.Holds.{held_to};
ghost use Rattle.curves.specs.Octave.{octaves};

use crate::octave_table::OCTAVES;

// The entry of each cent of an octave.
#[derive(Clone, Copy)]
pub struct OctaveTable {
    entries: [u32; 1200],
    ghost kept: { entries ≡ octaves },
}

impl OctaveTable {
    // The table, made once by whoever reads it often.
    pub fn new() -> OctaveTable
        ensures { result.entries ≡ octaves }
    {
        OctaveTable { entries: OCTAVES }
    }

    // The entry for c cents above a whole octave's start.
    pub fn entry(&self, c: u32) -> u64
        ensures { (result ≡ get_or octaves (c % 1200) 0) × (result ≤ 2147483647) }
    {
        let i = (c % 1200) as usize;
        self.entries[i] as u64
    }
}

// How far x, held to -low..high, stands above -low.
pub fn lift(low: u16, high: u16, x: i32) -> u32
    ensures { (result ≡ nat_abs (held_to (neg_ℤ (pos low)) (pos high) x +ℤ pos low)) × (result ≤ low + high) }
{
    let l = low as i32;
    let h = high as i32;
    if x < -l {
        return 0;
    }
    if h < x {
        return low as u32 + high as u32;
    }
    (x + l) as u32
}
