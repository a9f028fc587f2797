// For timing (speed/): 32 voices of mixed stages, 4,096 frames a round; as many rounds as there are bytes on standard input. It writes a hash of all sums and places.

#![tactic(auto)]

ghost use Rattle.std.specs.Prelude.{◌≡◌, ◌<◌, ◌≤◌, length};
ghost use Rattle.voice.specs.Internal.Sums.{Small};

use curves::{GainTable, OctaveTable};
use voice::{Channel, Slot, Stage, Voice};

// Each stage by the voice's number.
fn stage_of(i: u8) -> Stage {
    match i % 8 {
        0 => Stage::Delay { left: 1000 },
        1 => Stage::Attack { t: 0 },
        2 => Stage::Hold { t: 0 },
        3 => Stage::Decay { t: 0 },
        4 => Stage::Decay { t: 20000 },
        5 => Stage::Sustain,
        6 => Stage::Release { from: 100, t: 0 },
        _ => Stage::Sustain,
    }
}

// 0, 1, 3 and 1 again, eight voices each.
fn mode_of(i: u8) -> u8 {
    match i / 8 {
        0 => 0,
        1 => 1,
        2 => 3,
        _ => 1,
    }
}

// Samples in the loop: the last eight voices have short ones.
fn length_of(i: u8) -> u32
    ensures { result ≤ 30000 }
{
    if 23 < i {
        return 40 + u32::from(i);
    }
    3000 + 100 * u32::from(i)
}

// The pitch by the voice's number.
fn cents_of(i: u8) -> i32 {
    match i % 5 {
        0 => -2400,
        1 => -700,
        2 => 0,
        3 => 650,
        _ => 1800,
    }
}

// Left, about the middle, and right.
fn pan_of(i: u8) -> i16 {
    match i % 3 {
        0 => -490,
        1 => 40,
        _ => 300,
    }
}

// Voice i of round r.
fn struck(i: u8, r: u64) -> Slot {
    let from = 10 * u32::from(i);
    let length = length_of(i);
    Slot {
        sounding: true,
        voice: Voice {
            stage: stage_of(i),
            place: r % 64 * 1048576,
            channel: 0,
            key: 60,
            velocity: 100,
            marked: false,
            class: 0,
            rom: false,
            start: 0,
            end: 65536,
            mode: mode_of(i),
            loopfrom: from,
            loopto: from + length,
            rate: 44100,
            pitch: cents_of(i),
            pan: pan_of(i),
            attenuation: 40,
            attack: 7000,
            hold: 9000,
            decay: 200000,
            sustain: 300,
            release: 90000,
        },
    }
}

// A sample of the noise.
fn sample_of(x: u32) -> i16
    requires { x < 20000 }
{
    (x as i16) - 10000
}

// 65,536 samples of noise.
fn samples() -> [i16; 65536]
    ensures { 65536 ≡ length result }
{
    let mut w = [0i16; 65536];
    let mut x: u32 = 1;
    for s in &mut w {
        x = (x * 25173 + 13849) % 65536;
        *s = sample_of(x % 20000);
    }
    w
}

// A sum as a number without sign; no sum comes near the lower end.
fn lift(x: i32) -> u64
    ensures { result ≤ 4294967296 }
{
    (i64::from(x) + 1000000000).max(0).cast_unsigned()
}

// All sums, each times its number.
fn weigh(acc: &[i32]) -> u64
    requires { 8192 ≤ length acc.now }
{
    let mut h: u64 = 0;
    for k in 0..8192 {
        h = h.wrapping_add(lift(acc[k]) * (k as u64 + 1));
    }
    h
}

// One round into the sums.
fn round(g: &GainTable, o: &OctaveTable, w: &[i16], acc: &mut [i32], r: u64) -> u64
    requires { (8192 ≤ length acc.old) × Small 0 acc.old }
{
    let c = Channel {
        program: 0,
        stored: 0,
        bank: 0,
        bend: 8192,
        volume: 127,
        expression: 127,
        pedal: 0,
    };
    let mut h: u64 = 0;
    for i in 0..32 {
        let t = voice::run(c, g, o, w, struck(i, r), acc, 4096);
        h = h.wrapping_add(t.voice.place);
    }
    h.wrapping_add(weigh(acc))
}

// One round, from sums of zeros.
fn one(g: &GainTable, o: &OctaveTable, w: &[i16], r: u64) -> u64 {
    let mut acc = [0i32; 8192];
    round(g, o, w, &mut acc, r)
}

// All rounds, each with its number.
fn play(rounds: u64) -> u64 {
    let g = curves::GainTable::new();
    let o = curves::OctaveTable::new();
    let w = samples();
    let mut h: u64 = 0;
    for r in 0..rounds {
        h = h.wrapping_add(one(&g, &o, &w, r));
    }
    h
}

// As many rounds as there are bytes on standard input.
fn main() {
    let mut input = io::large_buffer();
    let n = io::read_full(0, &mut input);
    io::print_hex(1, play(n as u64), 16);
    io::write_all(1, b"\n");
}
