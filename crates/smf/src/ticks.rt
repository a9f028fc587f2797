// Ticks to frames.
ghost use Rattle.std.specs.Prelude.{◌≡◌, ◌+◌, ◌*◌, ◌<◌, ◌≤◌};
ghost use Rattle.smf.specs.Ticks.{sum_after, is_late, frame_of};

use crate::Cursor;

// The highest U: an hour.
fn limit(division: u16) -> u64
    ensures { result ≡ 3600000000 * division }
{
    3600000000 * (division as u64)
}

// U too high, so many ticks of a tempo behind a sum.
pub fn is_late(division: u16, sum: u64, ticks: u32, tempo: u32) -> bool
    requires { ticks < 268435456 }
    ensures { result ≡ is_late division (sum + ticks * tempo) }
{
    let high = limit(division);
    if high < sum {
        return true;
    }
    high < sum + (ticks as u64) * (tempo as u64)
}

// U, so many ticks behind a cursor, where it is not too high.
pub fn sum_after(c: Cursor, ticks: u32) -> u64
    requires { sum_after c ticks ≤ 3600000000 * c.division }
    ensures { result ≡ sum_after c ticks }
{
    c.sum + (ticks as u64) * (c.tempo as u64)
}

// The frame of U.
pub fn frame_of(division: u16, sum: u64) -> u32
    requires { sum ≤ 3600000000 * division }
    ensures { result ≡ frame_of division sum }
{
    if division == 0 {
        return 0;
    }
    (sum * 44100 / ((division as u64) * 1000000)) as u32
}
