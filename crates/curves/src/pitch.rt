// Pitch: the cents of a bend, and the step of a pitch total.
ghost use Rattle.std.specs.Prelude.{◌≡◌};
ghost use Rattle.curves.specs.Pitch.{bend_cents};
ghost use Rattle.curves.specs.Internal.Pitch.{step_at};

use crate::OctaveTable;
use crate::octave::lift;

// The cents of a bend, which may be any 16-bit number.
pub fn bend_cents(bend: u16) -> i32
    ensures { result ≡ bend_cents bend }
{
    ((bend as i32 - 8192) * 25) >> 10
}

impl OctaveTable {
    // The step of a pitch total, which is held here, in 2^-24 samples.
    pub fn step(&self, cents: i32, rate: u16) -> u32
        ensures { result ≡ step_at cents rate }
    {
        let c = lift(9600, 4800, cents);
        let scaled = self.entry(c) * (rate as u64) / 44100;
        (scaled >> ((14 - c / 1200) as u64)) as u32
    }
}
