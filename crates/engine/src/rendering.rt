// Render: its tests, and the lent output.
ghost use Rattle.std.specs.Prelude.{◌≡◌, ◌*◌, ◌≤◌, ◌&&◌, ◌||◌, ◌++◌, length, drop};
ghost use Rattle.state.specs.Slots.{slots_of};
ghost use Rattle.state.specs.Reach.{ends_past};
ghost use Rattle.state.specs.Answers.{told_call, status_of};
ghost use Rattle.engine.specs.Rendering.{distance, lacks, lacking, render_number, output, played, render, rendered};

use crate::adding::{mix_all, run_all};
use curves::{GainTable, OctaveTable};
use state::{Engine, Refusal, ends_past, slot_of};
use voice::Slot;

// The distance to the asked clock value, modulo 2^32.
pub fn distance_to(e: Engine, to: u32) -> u32
    ensures { result ≡ distance e to }
{
    std::num::wrapping_sub_u32(to, e.clock)
}

// The slot sounds, and its window ends past its memory.
fn lacks_window<'a>(ram: &'a [i16], rom: &'a [i16], s: Slot) -> bool
    ensures { result ≡ lacks ram.now rom.now s }
{
    s.sounding && ends_past(ram, rom, s.voice)
}

// One of the slots sounds and its window ends past its memory.
fn lacks<'a>(e: Engine, ram: &'a [i16], rom: &'a [i16]) -> bool
    ensures { result ≡ lacking ram.now rom.now (slots_of e) }
{
    for i in 0..32 {
        if lacks_window(ram, rom, slot_of(e, i)) {
            return true;
        }
    }
    false
}

// The tests in order: 5, 6, 7, 8.
pub fn render_number<'a>(
    e: Engine,
    to: u32,
    ram: &'a [i16],
    rom: &'a [i16],
    room: usize,
) -> Result<(), Refusal>
    ensures { status_of result ≡ render_number to ram.now rom.now room e }
{
    let n = distance_to(e, to);
    if 2147483648 <= n {
        return Err(Refusal::ClockBehind);
    }
    if 4096 < n {
        return Err(Refusal::TooManyFrames);
    }
    if room < 2 * (n as usize) {
        return Err(Refusal::OutputTooShort);
    }
    if lacks(e, ram, rom) {
        return Err(Refusal::PastMemory);
    }
    Ok(())
}

// n frames into the front of the output.
pub fn play<'a>(e: Engine, ram: &'a [i16], rom: &'a [i16], out: &mut [f32], n: usize) -> Engine
    requires { (n ≤ 4096) × (2 * n ≤ length out.old) }
    ensures state { result ≡ played ram.now rom.now n e }
    ensures output { out.new ≡ output ram.now rom.now e n ++ drop (2 * n) out.old }
{
    let g = GainTable::new();
    let o = OctaveTable::new();
    let mut acc = [0i32; 8192];
    let x = run_all(e, &g, &o, ram, rom, &mut acc, n);
    mix_all(&acc, out, n);
    x
}

// Render to a clock value: the voices' frames into the first 2n numbers of the output. It counts no voices.
pub fn render<'a>(
    e: &mut Engine,
    ram: &'a [i16],
    rom: &'a [i16],
    out: &mut [f32],
    to: u32,
) -> Result<u32, Refusal>
    ensures answer { told_call result e.new ≡ render to ram.now rom.now (length out.old) e.old }
    ensures output { out.new ≡ rendered to ram.now rom.now out.old e.old }
{
    render_number(*e, to, ram, rom, out.len())?;
    let n = distance_to(*e, to);
    let mut x = play(*e, ram, rom, out, n as usize);
    x.clock = std::num::wrapping_add_u32(e.clock, n);
    *e = x;
    Ok(0)
}
