// For timing (speed/): a MIDI file, opened, which tests it, and read to its end, as many rounds as asked.
// Standard input: u32 rounds, u32 and so many bytes of a file, at most 65,536. It writes the file's number, the count of its events, and the sum
// (modulo 2^32) of the frames and bytes of all events of all rounds, in decimal.

#![tactic(auto)]

use cases::{Bad, Held, Input, Text};
use smf::{Cursor, Event};

// What the last round gave, and the sum of all of them.
#[derive(Clone, Copy)]
pub struct Heard {
    pub number: u8,
    pub count: u64,
    pub sum: u32,
}

// Three bytes as one number.
fn bytes_of(status: u8, first: u8, second: u8) -> u32 {
    u32::from(status) + u32::from(first) + u32::from(second)
}

// The sum with one event more.
fn with_event(sum: u32, e: Event) -> u32 {
    sum.wrapping_add(e.frame)
        .wrapping_add(bytes_of(e.status, e.first, e.second))
}

// All events from a cursor on. There are fewer than the file has bytes, so that the reader ends before the loop does.
fn events(file: &[u8], number: u8, from: Cursor, before: u32) -> Heard {
    let mut c = from;
    let mut heard = Heard {
        number,
        count: 0,
        sum: before,
    };
    for count in 0..file.len() {
        heard.count = count as u64;
        let h = smf::next(file, c);
        let Some(event) = h.event else {
            return heard;
        };
        heard.sum = with_event(heard.sum, event);
        c = h.cursor;
    }
    heard.count = file.len() as u64;
    heard
}

// One round.
fn round(file: &[u8], before: u32) -> Heard {
    let o = smf::open(file);
    events(file, o.number, o.cursor, before)
}

// All rounds.
fn play(file: &[u8], rounds: u32) -> Heard {
    let mut heard = Heard {
        number: 0,
        count: 0,
        sum: 0,
    };
    for _ in 0..rounds {
        heard = round(file, heard.sum);
    }
    heard
}

// The line of the rounds that the input asks for. A file that is cut off or too long is bad.
fn report(input: &mut Input, text: &mut Text) -> Result<(), Bad> {
    let mut bytes = [0u8; 65536];
    let mut file = Held::nothing(&mut bytes);
    let rounds: u32 = input.next()?;
    let length: u32 = input.next()?;
    file.read(input, length)?;
    let h = play(file.lent(), rounds);
    text.decimal(u64::from(h.number));
    text.spaced(h.count);
    text.spaced(u64::from(h.sum));
    text.put(b'\n');
    Ok(())
}

fn main() {
    let mut room = io::large_buffer();
    let mut input = Input::start(&mut room);
    let mut text = Text::begin();
    let reported = report(&mut input, &mut text);
    text.finish(reported);
}
