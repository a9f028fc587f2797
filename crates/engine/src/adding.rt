// n frames of a state's voices, added up: voices outside, frames inside.
ghost use Rattle.std.specs.Prelude.{◌≡◌, ◌*◌, ◌≤◌, ◌++◌, length, drop};
ghost use Rattle.voice.specs.Internal.Sums.{add_to, Small};
ghost use Rattle.state.specs.Slots.{slots_of};
ghost use Rattle.engine.specs.Rendering.{slot_after, played};
ghost use Rattle.engine.specs.Internal.Sums.{slot_heard, add_all, mixed_to};

use crate::mixer::mix;
use curves::{GainTable, OctaveTable};
use records::window_of;
use state::{Engine, channel_of, flag, slot_of, with_word};
use voice::{Slot, run};

// n frames of a slot into the sums; a free one is skipped.
fn run_slot<'a>(
    e: Engine,
    g: &GainTable,
    o: &OctaveTable,
    ram: &'a [i16],
    rom: &'a [i16],
    s: Slot,
    acc: &mut [i32],
    n: usize,
) -> Slot
    requires sums { (2 * n ≤ length acc.old) × Small 31 acc.old }
    ensures slot { result ≡ slot_after ram.now rom.now e n s }
    ensures sums { acc.new ≡ add_to (slot_heard ram.now rom.now e n s) acc.old }
    ensures small { Small 1 (slot_heard ram.now rom.now e n s) }
{
    if !s.sounding {
        return s;
    }
    let v = s.voice;
    let c = channel_of(e, v.channel);
    let w = window_of(ram, rom, v.rom, v.start, v.end);
    run(c, g, o, w, s, acc, n)
}

// n frames of all slots into the sums.
pub fn run_all<'a>(
    e: Engine,
    g: &GainTable,
    o: &OctaveTable,
    ram: &'a [i16],
    rom: &'a [i16],
    acc: &mut [i32],
    n: usize,
) -> Engine
    requires sums { (2 * n ≤ length acc.old) × Small 0 acc.old }
    ensures state { result ≡ played ram.now rom.now n e }
    ensures sums { acc.new ≡ add_all (slot_heard ram.now rom.now e n) (slots_of e) acc.old }
{
    let mut x = e;
    let mut word: u32 = 0;
    for i in 0..32 {
        let s = slot_of(e, i);
        let t = run_slot(e, g, o, ram, rom, s, acc, n);
        x.voices[i] = t.voice;
        word += flag(t.sounding, i as u32);
    }
    with_word(x, word)
}

// The first n frames of the output, each a stereo frame of two sums.
pub fn mix_all(acc: &[i32], out: &mut [f32], n: usize)
    requires { (2 * n ≤ length acc.now) × (2 * n ≤ length out.old) }
    ensures { out.new ≡ mixed_to n acc.now ++ drop (2 * n) out.old }
{
    for k in 0..n {
        let l = acc[2 * k];
        let r = acc[2 * k + 1];
        let f = mix(l, r);
        out[2 * k] = f.left;
        out[2 * k + 1] = f.right;
    }
}
