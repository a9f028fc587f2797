// The sums of voices themselves: what a recorder measures, and lowers before it is held.
ghost use Rattle.std.specs.Prelude.{◌≡◌, ◌*◌, length, replicate, pos};
ghost use Rattle.engine.specs.Rendering.{played, render};
ghost use Rattle.state.specs.Answers.{told_call};
ghost use Rattle.engine.specs.Summing.{sums_of, summed};

use crate::adding::run_all;
use crate::rendering::{distance_to, render_number};
use curves::{GainTable, OctaveTable};
use state::{Engine, Refusal};

// n frames of all slots into an output of just their length.
fn add_up<'a>(e: Engine, ram: &'a [i16], rom: &'a [i16], acc: &mut [i32], n: usize) -> Engine
    requires { 2 * n ≡ length acc.old }
    ensures state { result ≡ played ram.now rom.now n e }
    ensures output { acc.new ≡ sums_of ram.now rom.now e n }
{
    let g = GainTable::new();
    let o = OctaveTable::new();
    acc.fill(0);
    run_all(e, &g, &o, ram, rom, acc, n)
}

// Render to a clock value, but the sums of voices, not held, into the first 2n numbers of the output.
pub fn sums<'a>(
    e: &mut Engine,
    ram: &'a [i16],
    rom: &'a [i16],
    out: &mut [i32],
    to: u32,
) -> Result<u32, Refusal>
    ensures answer { told_call result e.new ≡ render to ram.now rom.now (length out.old) e.old }
    ensures output { out.new ≡ summed to ram.now rom.now out.old e.old }
{
    render_number(*e, to, ram, rom, out.len())?;
    let n = distance_to(*e, to);
    let m = n as usize;
    let mut x = add_up(*e, ram, rom, &mut out[..2 * m], m);
    x.clock = std::num::wrapping_add_u32(e.clock, n);
    *e = x;
    Ok(0)
}
