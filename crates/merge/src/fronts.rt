// The head of a file of format 0 or 1.
ghost use Rattle.std.specs.Prelude.{◌≡◌, ◌≤◌, length};
ghost use Rattle.merge.specs.Fronts.{front_of, count_number};

use crate::Front;
use smf::head::chunk_end;
use smf::quantities::{four_at, two_at};

// MThd, as a number.
const MTHD: u32 = 1297377380;

// What is wrong with a number of tracks.
fn count_number(format: u16, count: u16) -> u8
    ensures { result ≡ count_number format count }
{
    if format == 0 {
        if count == 1 {
            return 0;
        }
        return 9;
    }
    if count == 0 {
        return 9;
    }
    if 256 < count {
        return 44;
    }
    0
}

// A fault of the head.
fn refused(number: u8, place: u32) -> Front
    ensures { result ≡ Front.Refused number place }
{
    Front::Refused { number, place }
}

// The head's fields in their order.
pub fn front(b: &[u8]) -> Front
    requires { length b.now ≤ 16777216 }
    ensures { result ≡ front_of b.now }
{
    if four_at(b, 0) != MTHD {
        return refused(9, 0);
    }
    if four_at(b, 4) < 6 {
        return refused(9, 4);
    }
    let end = chunk_end(b, 0);
    if b.len() < end {
        return refused(9, 4);
    }
    let format = two_at(b, 8);
    if 1 < format {
        return refused(10, 8);
    }
    let count = two_at(b, 10);
    let number = count_number(format, count);
    if number != 0 {
        return refused(number, 10);
    }
    let division = two_at(b, 12);
    if division == 0 {
        return refused(9, 12);
    }
    if 32767 < division {
        return refused(10, 12);
    }
    Front::Song {
        count,
        division,
        at: end as u32,
    }
}
