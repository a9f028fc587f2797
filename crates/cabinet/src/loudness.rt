// For a recorder: the sums of voices before they are held, and their bytes at a lower level.
ghost use Rattle.std.specs.Prelude.{◌≡◌, length};
ghost use Rattle.engine.specs.Rendering.{render};
ghost use Rattle.engine.specs.Summing.{summed};
ghost use Rattle.wave.specs.Lowering.{attenuation_for, sums_into, sums_poured};
ghost use Rattle.cabinet.specs.Keeping.{engine_in, kept_answer};

use crate::Flat;
use crate::keeping::{keep_answer, player_in};

// Frames up to a clock value, with no song, as the sums of their voices.
pub fn thularek_sums<'a>(
    state: &mut Flat,
    ram: &'a [i16],
    rom: &'a [i16],
    out: &mut [i32],
    to: u32,
) -> u32
    ensures { (state.new ≡ kept_answer (render to ram.now rom.now (length out.old) (engine_in state.old)) state.old) × (result ≡ (render to ram.now rom.now (length out.old) (engine_in state.old)).status) × (out.new ≡ summed to ram.now rom.now out.old (engine_in state.old)) }
{
    let mut e = player_in(*state).engine;
    let a = engine::sums(&mut e, ram, rom, out, to);
    *state = keep_answer(a, e, *state);
    state.number
}

// Sums as bytes at a lower level, two for each; how many frames were held, and the largest size of a sum.
pub fn thularek_wave_sums(
    sums: &[i32],
    attenuation: u16,
    out: &mut [u8],
    held: &mut u32,
    loudest: &mut u32,
) -> u32
    ensures { (result ≡ (sums_poured attenuation sums.now (length out.old)).number) × (held.new ≡ (sums_poured attenuation sums.now (length out.old)).held) × (loudest.new ≡ (sums_poured attenuation sums.now (length out.old)).loudest) × (out.new ≡ sums_into attenuation sums.now out.old) }
{
    match wave::pour_sums(sums, attenuation, out) {
        Ok(poured) => {
            *held = poured.held;
            *loudest = poured.loudest;
            0
        }
        Err(refusal) => {
            *held = 0;
            *loudest = 0;
            u32::from(refusal.number())
        }
    }
}

// The least attenuation with which no sum of at most this size is held.
pub fn thularek_attenuation_for(loudest: u32) -> u32
    ensures { result ≡ attenuation_for loudest }
{
    u32::from(wave::attenuation_for(loudest))
}
