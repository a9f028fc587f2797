// The head chunk, field by field, and the chunks up to the track.
ghost use Rattle.std.specs.Prelude.{◌≡◌, ◌≤◌, length};
ghost use Rattle.smf.specs.Head.{head_of, track_from, chunk_end};
ghost use Rattle.smf.specs.Songs.{start_at};

use crate::quantities::{four_at, two_at};
use crate::{Cursor, Header};

// The names of the two chunks of the standard, as numbers.
const MTHD: u32 = 1297377380;

const MTRK: u32 = 1297379947;

// Where the chunk at a place ends, by its length field.
pub fn chunk_end(b: &[u8], at: usize) -> usize
    requires { at ≤ 16777216 }
    ensures { result ≡ chunk_end b.now at }
{
    at + 8 + (four_at(b, at + 4) as usize)
}

// A fault of the head or of a chunk.
fn refused(number: u8, place: usize) -> Header
    requires { place ≤ 16777220 }
    ensures { result ≡ Header.Refused number place }
{
    Header::Refused {
        number,
        place: place as u32,
    }
}

// The first chunk from a place on that is named MTrk.
pub fn track_from(b: &[u8], from: usize) -> Header
    requires { (length b.now ≤ 16777216) × (from ≤ length b.now) }
    ensures { result ≡ track_from (length b.now) b.now from }
{
    let mut at = from;
    // Each chunk says where the next one begins, so no index counts them.
    while at + 4 <= b.len() {
        let end = chunk_end(b, at);
        if b.len() < end {
            return refused(9, at + 4);
        }
        if four_at(b, at) == MTRK {
            return Header::Track {
                at: (at + 8) as u32,
                end: end as u32,
            };
        }
        at = end;
    }
    refused(9, at)
}

// The head's fields in their order, then the chunks behind it.
pub fn head(b: &[u8]) -> Header
    requires { length b.now ≤ 65536 }
    ensures { result ≡ head_of b.now }
{
    if four_at(b, 0) != MTHD {
        return refused(9, 0);
    }
    if four_at(b, 4) < 6 {
        return refused(9, 4);
    }
    let end = chunk_end(b, 0);
    if b.len() < end {
        return refused(9, 4);
    }
    if two_at(b, 8) != 0 {
        return refused(10, 8);
    }
    if two_at(b, 10) != 1 {
        return refused(9, 10);
    }
    let division = two_at(b, 12);
    if division == 0 {
        return refused(9, 12);
    }
    if 32767 < division {
        return refused(10, 12);
    }
    track_from(b, end)
}

// At the track's first delta time.
pub fn start(b: &[u8], at: u32, end: u32) -> Cursor
    ensures { result ≡ start_at b.now at end }
{
    Cursor {
        at,
        end,
        running: 0,
        division: two_at(b, 12),
        tempo: 500000,
        sum: 0,
    }
}
