// Times: the frames of a time in timecents.
ghost use Rattle.std.specs.Prelude.{◌≤◌, ◌^◌, pos, ◌≡◌};
ghost use Rattle.curves.specs.Times.{frames_up, frames};

use crate::OctaveTable;
use crate::octave::lift;

// 2^o, for the octaves of a time.
fn two_to(o: u32) -> u64
    requires { o ≤ 16 }
    ensures { (result ≡ 2 ^ o) × (result ≤ 65536) }
{
    1 << (o as u64)
}

impl OctaveTable {
    // The frames of timecents above -12,000.
    fn frames_up(&self, c: u32) -> u32
        requires { c ≤ 20000 }
        ensures { result ≡ frames_up c }
    {
        let scaled = self.entry(c) * 44100 * two_to(c / 1200);
        (scaled / 1099511627776) as u32
    }

    // The frames of a time that is held to -12,000..top.
    fn frames_to(&self, top: u16, time: i32) -> u32
        requires { top ≤ 8000 }
        ensures { result ≡ frames (pos top) time }
    {
        if time <= -32768 {
            return 0;
        }
        self.frames_up(lift(12000, top, time))
    }

    // The frames of an attack, a decay or a release.
    pub fn long_frames(&self, time: i32) -> u32
        ensures { result ≡ frames (pos 8000) time }
    {
        self.frames_to(8000, time)
    }

    // The frames of a delay or a hold.
    pub fn short_frames(&self, time: i32) -> u32
        ensures { result ≡ frames (pos 5000) time }
    {
        self.frames_to(5000, time)
    }
}
