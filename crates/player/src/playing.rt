// Render: the engine's frames, with each event of the song before the frame that it names.
ghost use Rattle.std.specs.Prelude.{◌≡◌, ◌+◌, ◌*◌, ◌<◌, ◌≤◌, ◌++◌, true, false, length, take, drop, if◌then◌else◌};
ghost use Rattle.engine.specs.Rendering.{output};
ghost use Rattle.player.specs.Cues.{song_over};
ghost use Rattle.player.specs.Playing.{opened, applying, forward, performed, numbers, answered, sounded_into};

use crate::acting::heed;
use crate::cues::{cue, gap, with_engine};
use crate::{Answer, Player, Tally};
use smf::Event;

// No event is applied yet.
fn open(p: Player) -> Tally
    ensures { result ≡ opened p }
{
    Tally {
        player: p,
        applied: 0,
        refused: 0,
    }
}

// The event that comes next acts on the engine and is counted, and the one behind it is read.
fn apply<'a>(x: Tally, v: Event, file: &[u8], bank: &[u8], ram: &'a [i16], rom: &'a [i16]) -> Tally
    requires { (x.player.event ≡ Some v) × (x.applied < 4294967295) × (x.refused ≤ x.applied) }
    ensures { result ≡ applying file.now bank.now ram.now rom.now x }
{
    let p = x.player;
    let mut e = p.engine;
    let a = heed(&mut e, bank, ram, rom, v);
    Tally {
        player: cue(with_engine(p, e), smf::next(file, p.cursor)),
        applied: x.applied + 1,
        refused: x.refused + u32::from(a.is_err()),
    }
}

// The same only where frames are left to be rendered.
fn apply_if<'a>(
    more: bool,
    x: Tally,
    file: &[u8],
    bank: &[u8],
    ram: &'a [i16],
    rom: &'a [i16],
) -> Tally
    requires { (more ≡ true → song_over x.player ≡ false) × (x.applied < 4294967295) × (x.refused ≤ x.applied) }
    ensures { result ≡ (if more then applying file.now bank.now ram.now rom.now x else x) }
{
    match x.player.event {
        Some(v) if more => apply(x, v, file, bank, ram, rom),
        _ => x,
    }
}

// m frames of the engine alone, written from a place of the output on.
fn go_on<'a>(x: Tally, ram: &'a [i16], rom: &'a [i16], out: &mut [f32], at: usize, m: u32) -> Tally
    requires { (m ≤ 4096) × (at + 2 * m ≤ length out.old) }
    ensures tally { result ≡ forward ram.now rom.now m x }
    ensures output { out.new ≡ take at out.old ++ (output ram.now rom.now x.player.engine m ++ drop (at + 2 * m) out.old) }
{
    if m == 0 {
        return x;
    }
    let p = x.player;
    let e = p.engine;
    let mut y = engine::rendering::play(e, ram, rom, &mut out[at..], m as usize);
    y.clock = e.clock.wrapping_add(m);
    Tally {
        player: with_engine(p, y),
        ..x
    }
}

// n frames, and the events that are due in front of each. A turn goes on to the next event, and applies it if it is one of these. (It goes on by as many frames as the gap has, so this is no `for`.)
fn play_on<'a>(
    p: Player,
    file: &[u8],
    bank: &[u8],
    ram: &'a [i16],
    rom: &'a [i16],
    out: &mut [f32],
    n: u32,
) -> Tally
    requires { (n ≤ 4096) × (2 * n ≤ length out.old) }
    ensures tally { result ≡ performed file.now bank.now ram.now rom.now n (opened p) }
    ensures output { out.new ≡ numbers file.now bank.now ram.now rom.now n (opened p) ++ drop (2 * n) out.old }
{
    let mut x = open(p);
    let mut k: u32 = 0;
    while k < n {
        let m = gap(x.player, n - k);
        x = go_on(x, ram, rom, out, 2 * (k as usize), m);
        k += m;
        x = apply_if(k < n, x, file, bank, ram, rom);
    }
    x
}

// Render to a clock value. Its tests are the engine's, at its start.
pub fn render<'a>(
    p: Player,
    file: &[u8],
    bank: &[u8],
    ram: &'a [i16],
    rom: &'a [i16],
    out: &mut [f32],
    to: u32,
) -> Answer
    ensures answer { result ≡ answered file.now bank.now ram.now rom.now to (length out.old) p }
    ensures output { out.new ≡ sounded_into file.now bank.now ram.now rom.now to out.old p }
{
    match engine::rendering::render_number(p.engine, to, ram, rom, out.len()) {
        Ok(()) => {
            let n = engine::rendering::distance_to(p.engine, to);
            let x = play_on(p, file, bank, ram, rom, out, n);
            Answer {
                number: 0,
                applied: x.applied,
                refused: x.refused,
                player: x.player,
            }
        }
        Err(refusal) => Answer {
            number: refusal.number(),
            applied: 0,
            refused: 0,
            player: p,
        },
    }
}
