// Render: the engine's alone, and with a song.
ghost use Rattle.std.specs.Prelude.{◌≡◌, length};
ghost use Rattle.engine.specs.Rendering.{render, rendered};
ghost use Rattle.player.specs.Playing.{answered, sounded_into};
ghost use Rattle.cabinet.specs.Keeping.{player_in, engine_in, kept_answer, kept_play};

use crate::Flat;
use crate::keeping::{keep_answer, keep_play, player_in};

// Frames up to a clock value, with no song.
pub fn thularek_render<'a>(
    state: &mut Flat,
    ram: &'a [i16],
    rom: &'a [i16],
    out: &mut [f32],
    to: u32,
) -> u32
    ensures { (state.new ≡ kept_answer (render to ram.now rom.now (length out.old) (engine_in state.old)) state.old) × (result ≡ (render to ram.now rom.now (length out.old) (engine_in state.old)).status) × (out.new ≡ rendered to ram.now rom.now out.old (engine_in state.old)) }
{
    let mut e = player_in(*state).engine;
    let a = engine::render(&mut e, ram, rom, out, to);
    *state = keep_answer(a, e, *state);
    state.number
}

// Frames up to a clock value, with each event of the song before its frame.
pub fn thularek_song_render<'a>(
    state: &mut Flat,
    song: &[u8],
    bank: &[u8],
    ram: &'a [i16],
    rom: &'a [i16],
    out: &mut [f32],
    to: u32,
) -> u32
    ensures { (state.new ≡ kept_play (answered song.now bank.now ram.now rom.now to (length out.old) (player_in state.old))) × (result ≡ (answered song.now bank.now ram.now rom.now to (length out.old) (player_in state.old)).number) × (out.new ≡ sounded_into song.now bank.now ram.now rom.now to out.old (player_in state.old)) }
{
    let p = player_in(*state);
    let a = player::render(p, song, bank, ram, rom, out, to);
    *state = keep_play(a);
    state.number
}
