// Places and modes of a window, and whether they are good.
ghost use Rattle.std.specs.Prelude.{◌≡◌, ◌<◌, pos, ◌+ℤ◌, ◌*ℤ◌};
ghost use Rattle.arith.specs.Within.{Within};
ghost use Rattle.arith.specs.Floors.{mod_z};
ghost use Rattle.records.specs.Internal.Amounts.{at};
ghost use Rattle.records.specs.Windows.{shifted, place_moved, start_of, end_of, loop_start_of, loop_end_of, mode_of, loops, good_places, good_window};

use crate::headers::place_of;
use crate::{Parts, wide};

// place + fine + 32,768 * coarse
fn sum(place: i64, fine: i64, coarse: i64) -> i64
    requires { Within place 4294967295 × Within fine 32768 × Within coarse 32768 }
    ensures { (result ≡ place +ℤ fine +ℤ coarse *ℤ pos 32768) × Within result 10000000000 }
{
    place + fine + coarse * 32768
}

// A header's place, plus a fine and 32,768 times a coarse amount.
fn shifted(place: u32, fine: i16, coarse: i16) -> i64
    ensures { result ≡ shifted place fine coarse }
{
    sum(place as i64, fine as i64, coarse as i64)
}

// The place of sample k at an offset of its header, moved by the values of the generators fine and coarse.
fn place_moved(
    b: &[u8],
    m: Parts,
    k: u32,
    v: &[i16; 61],
    offset: u8,
    fine: usize,
    coarse: usize,
) -> i64
    requires { (fine < 61) × (coarse < 61) }
    ensures { result ≡ place_moved b.now m k (at v.now) offset fine coarse }
{
    let place = place_of(b, m, k, offset);
    shifted(place, v[fine], v[coarse])
}

// The start of the window of sample k with the values v.
pub fn start_of(b: &[u8], m: Parts, k: u32, v: &[i16; 61]) -> i64
    ensures { result ≡ start_of b.now m k (at v.now) }
{
    place_moved(b, m, k, v, 20, 0, 4)
}

// Its end.
pub fn end_of(b: &[u8], m: Parts, k: u32, v: &[i16; 61]) -> i64
    ensures { result ≡ end_of b.now m k (at v.now) }
{
    place_moved(b, m, k, v, 24, 1, 12)
}

// Its loop start.
pub fn loop_start_of(b: &[u8], m: Parts, k: u32, v: &[i16; 61]) -> i64
    ensures { result ≡ loop_start_of b.now m k (at v.now) }
{
    place_moved(b, m, k, v, 28, 2, 45)
}

// Its loop end.
pub fn loop_end_of(b: &[u8], m: Parts, k: u32, v: &[i16; 61]) -> i64
    ensures { result ≡ loop_end_of b.now m k (at v.now) }
{
    place_moved(b, m, k, v, 32, 3, 50)
}

// x modulo 4, not below 0.
fn mod4(x: i64) -> u64
    requires { Within x 32768 }
    ensures { result ≡ mod_z x 4 }
{
    ((x + 32768) as u64) % 4
}

// The mode of a window with the values v.
pub fn mode_of(v: &[i16; 61]) -> u64
    ensures { result ≡ mode_of (at v.now) }
{
    mod4(wide(v[54]))
}

// Whether a mode loops.
fn loops(mode: u64) -> bool
    ensures { result ≡ loops mode }
{
    mode == 1 || mode == 3
}

// Whether start, end, loop start and loop end are those of a good window.
fn good_places(start: i64, end: i64, from: i64, to: i64, looping: bool) -> bool
    ensures { result ≡ good_places start end from to looping }
{
    0 <= start
        && start < end
        && end < 4294967296
        && (!looping || (start <= from && from < to && to <= end))
}

// Whether the window of sample k with the values v is good.
pub fn good_window(b: &[u8], m: Parts, k: u32, v: &[i16; 61]) -> bool
    ensures { result ≡ good_window b.now m k (at v.now) }
{
    let start = start_of(b, m, k, v);
    let end = end_of(b, m, k, v);
    let from = loop_start_of(b, m, k, v);
    let to = loop_end_of(b, m, k, v);
    good_places(start, end, from, to, loops(mode_of(v)))
}
