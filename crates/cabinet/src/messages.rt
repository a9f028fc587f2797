// The messages of a MIDI cable, told to the engine in C's memory.
ghost use Rattle.std.specs.Prelude.{◌≡◌};
ghost use Rattle.events.specs.Striking.{note_on, bank_from};
ghost use Rattle.events.specs.Keys.{note_off};
ghost use Rattle.events.specs.Controls.{control_change};
ghost use Rattle.events.specs.Programs.{program_change};
ghost use Rattle.events.specs.Bends.{pitch_bend};
ghost use Rattle.cabinet.specs.Keeping.{engine_in, kept_answer};

use crate::Flat;
use crate::keeping::{keep_answer, player_in};

// A key is struck.
pub fn thularek_note_on<'a>(
    state: &mut Flat,
    bank: &[u8],
    ram: &'a [i16],
    rom: &'a [i16],
    channel: u8,
    key: u8,
    velocity: u8,
) -> u32
    ensures { (state.new ≡ kept_answer (note_on (bank_from bank.now) ram.now rom.now channel key velocity (engine_in state.old)) state.old) × (result ≡ (note_on (bank_from bank.now) ram.now rom.now channel key velocity (engine_in state.old)).status) }
{
    let mut e = player_in(*state).engine;
    let a = engine::note_on(&mut e, bank, ram, rom, channel, key, velocity);
    *state = keep_answer(a, e, *state);
    state.number
}

// A key is let go.
pub fn thularek_note_off(state: &mut Flat, channel: u8, key: u8) -> u32
    ensures { (state.new ≡ kept_answer (note_off channel key (engine_in state.old)) state.old) × (result ≡ (note_off channel key (engine_in state.old)).status) }
{
    let mut e = player_in(*state).engine;
    let a = engine::note_off(&mut e, channel, key);
    *state = keep_answer(a, e, *state);
    state.number
}

// A control is set.
pub fn thularek_control_change(state: &mut Flat, channel: u8, control: u8, value: u8) -> u32
    ensures { (state.new ≡ kept_answer (control_change channel control value (engine_in state.old)) state.old) × (result ≡ (control_change channel control value (engine_in state.old)).status) }
{
    let mut e = player_in(*state).engine;
    let a = engine::control_change(&mut e, channel, control, value);
    *state = keep_answer(a, e, *state);
    state.number
}

// A program is chosen.
pub fn thularek_program_change(state: &mut Flat, channel: u8, program: u8) -> u32
    ensures { (state.new ≡ kept_answer (program_change channel program (engine_in state.old)) state.old) × (result ≡ (program_change channel program (engine_in state.old)).status) }
{
    let mut e = player_in(*state).engine;
    let a = engine::program_change(&mut e, channel, program);
    *state = keep_answer(a, e, *state);
    state.number
}

// A channel is bent.
pub fn thularek_pitch_bend(state: &mut Flat, channel: u8, bend: u16) -> u32
    ensures { (state.new ≡ kept_answer (pitch_bend channel bend (engine_in state.old)) state.old) × (result ≡ (pitch_bend channel bend (engine_in state.old)).status) }
{
    let mut e = player_in(*state).engine;
    let a = engine::pitch_bend(&mut e, channel, bend);
    *state = keep_answer(a, e, *state);
    state.number
}
