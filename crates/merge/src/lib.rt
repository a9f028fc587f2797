// Songs that people have: a file of format 0 or 1 becomes one of format 0, which M-101 reads, in lent memory. Any bytes, any room.

#![tactic(auto)]

ghost use Rattle.std.specs.Prelude.{◌≡◌, ◌≤◌, length};
ghost use Rattle.merge.specs.Merging.{merged_of, joined_of, answer_of, written_into, room_of};

use smf::Item;

mod bridges;
mod entries;
mod fronts;
mod lanes;
mod lateness;
mod lines;
mod order;
mod pages;
mod sizes;

// The head's first fault, or how many tracks there are, the ticks of a quarter note, and where the chunks begin.
#[derive(Clone, Copy)]
pub enum Front {
    Refused { number: u8, place: u32 },
    Song { count: u16, division: u16, at: u32 },
}

// The next event of a track: its tick, its place behind its delta time, where its track ends, and what it is.
#[derive(Clone, Copy)]
pub struct Entry {
    pub tick: u64,
    pub place: u32,
    pub end: u32,
    pub item: Item,
}

// The next event of each track, of which `count` are there, with their ticks beside them, and the place of the first fault by 9.
#[derive(Clone, Copy)]
pub struct Tracks {
    pub ticks: [u64; 256],
    pub entries: [Entry; 256],
    pub count: usize,
    pub flaw: Option<u32>,
}

// The smallest tick among those of some tracks, and the first track that has it.
#[derive(Clone, Copy)]
pub struct Best {
    pub tick: u64,
    pub lane: usize,
}

// The time at an event: its tick, the tempo behind it, and U, held where it is past an hour; and the smallest place of what is past it.
#[derive(Clone, Copy)]
pub struct Hour {
    pub tick: u64,
    pub tempo: u32,
    pub sum: u64,
    pub late: Option<u32>,
}

// The line that is written: the tick of its last event, the tempo and the status that run behind it, and the last end of track.
#[derive(Clone, Copy)]
pub struct Line {
    pub tick: u64,
    pub tempo: u32,
    pub running: u8,
    pub end: u64,
}

// What a song needs: its time, its line, and the bytes so far.
#[derive(Clone, Copy)]
pub struct Tally {
    pub hour: Hour,
    pub line: Line,
    pub size: u64,
}

// The number, 0 where a song is written; the place of a fault; and how many bytes are written.
#[derive(Clone, Copy)]
pub struct Merged {
    pub number: u8,
    pub place: u32,
    pub size: usize,
}

// A refusal.
fn refused(number: u8, place: u32) -> Merged
    ensures { result ≡ record { number = number; place = place; size = 0 } }
{
    Merged {
        number,
        place,
        size: 0,
    }
}

// A song of several tracks as one of one track.
pub fn merge(file: &[u8], out: &mut [u8]) -> Merged
    ensures value { result ≡ answer_of (merged_of file.now (room_of out.old)) }
    ensures output { out.new ≡ written_into (merged_of file.now (room_of out.old)) out.old }
{
    if 16777216 < file.len() {
        return refused(9, 16777216);
    }
    let f = fronts::front(file);
    match f {
        Front::Refused { number, place } => refused(number, place),
        Front::Song {
            count,
            division,
            at,
        } => join(file, out, count, division, at),
    }
}

// The tracks of a file, whose chunks begin at a place.
fn join(file: &[u8], out: &mut [u8], count: u16, division: u16, at: u32) -> Merged
    requires { (length file.now ≤ 16777216) × (count ≤ 256) × (at ≤ length file.now) }
    ensures value { result ≡ answer_of (joined_of file.now count division at (room_of out.old)) }
    ensures output { out.new ≡ written_into (joined_of file.now count division at (room_of out.old)) out.old }
{
    let l = lanes::lanes(file, count, at);
    let t = order::tally(file, l, division);
    if let Some(place) = t.hour.late {
        return refused(11, place);
    }
    if let Some(place) = l.flaw {
        return refused(9, place);
    }
    let size = sizes::whole_size(t);
    if sizes::room(out.len()) < size {
        return refused(43, 0);
    }
    order::write(file, out, l, division, (size - 22) as u32);
    Merged {
        number: 0,
        place: 0,
        size: size as usize,
    }
}
