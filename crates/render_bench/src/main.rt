// For timing (speed/): a bank and its samples, keys struck, then renders; it writes a hash of the last output.
// Standard input: u32 strikes, u32 renders, u32 frames of a render (at most 4,096), u32 strikes before each render, u32 and so many bytes of a bank, u32 and so many samples.
// The last 32 strikes sound. Keys are struck again before each render where voices do not last.

#![tactic(auto)]

ghost use Rattle.std.specs.Prelude.{◌≤◌};

use cases::{Input, Text};
use engine::Engine;

// The keys 40 to 71 in turn, as often as asked.
fn strike<'a>(first: Engine, bank: &[u8], ram: &'a [i16], rom: &'a [i16], strikes: u32) -> Engine {
    let mut e = first;
    for i in 0..strikes {
        let _ = engine::note_on(&mut e, bank, ram, rom, 0, key_of(i), 100);
    }
    e
}

// The key of strike i.
fn key_of(i: u32) -> u8 {
    40 + (i % 32) as u8
}

// The renders, with so many strikes before each; the clock goes round.
fn play<'a>(
    first: Engine,
    bank: &[u8],
    ram: &'a [i16],
    rom: &'a [i16],
    out: &mut [f32],
    renders: u32,
    frames: u32,
    strikes: u32,
) -> u32 {
    let mut e = first;
    for _ in 0..renders {
        e = strike(e, bank, ram, rom, strikes);
        let to = e.clock.wrapping_add(frames);
        let _ = engine::render(&mut e, ram, rom, out, to);
    }
    e.sounding
}

// The next byte; 0 where none is left.
fn byte(input: &mut Input) -> u8 {
    input.byte().unwrap_or(0)
}

// The next number.
fn number(input: &mut Input) -> u32 {
    let bytes = [byte(input), byte(input), byte(input), byte(input)];
    u32::from_le_bytes(bytes)
}

// The next sample.
fn sample(input: &mut Input) -> i16 {
    let bytes = [byte(input), byte(input)];
    u16::from_le_bytes(bytes).cast_signed()
}

// As many samples as are lent.
fn samples_on(input: &mut Input, into: &mut [i16]) {
    for s in into {
        *s = sample(input);
    }
}

// The next number, of what there is room for; where it is more there is nothing, and nothing more is read.
fn count(input: &mut Input, room: usize) -> usize
    ensures { result ≤ room }
{
    let n = number(input) as usize;
    if n <= room {
        return n;
    }
    input.spoil();
    0
}

// A bank: as many bytes as are lent.
fn bytes_on(input: &mut Input, into: &mut [u8]) {
    for b in into {
        *b = byte(input);
    }
}

// What the input asks for, and how many voices sound then.
fn run(input: &mut Input, bank: &mut [u8], ram: &mut [i16], out: &mut [f32]) -> u32 {
    let strikes = number(input);
    let renders = number(input);
    let frames = number(input);
    let again = number(input);
    let bytes = count(input, bank.len());
    bytes_on(input, &mut bank[..bytes]);
    let samples = count(input, ram.len());
    samples_on(input, &mut ram[..samples]);
    let known = cases::first(bank, bytes);
    let lent = cases::first(ram, samples);
    let mut e = strike(engine::fresh(), known, lent, lent, strikes);
    // a second place that calls render, as a host has: so the compiler leaves it a function of its own
    let now = e.clock;
    let _ = engine::render(&mut e, lent, lent, out, now);
    play(e, known, lent, lent, out, renders, frames, again)
}

// How many voices sound, and the hash of the last output.
fn main() {
    let mut room = io::large_buffer();
    let mut bank = [0u8; 66000];
    let mut ram = [0i16; 65536];
    let mut out = [0f32; 8192];
    let mut input = Input::start(&mut room);
    let sounding = run(&mut input, &mut bank, &mut ram, &mut out);
    let mut text = Text::begin();
    text.hex(u64::from(sounding), 8);
    text.put(b' ');
    text.hex(cases::fnv(&out), 16);
    text.put(b'\n');
    text.flush();
}
