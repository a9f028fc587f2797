// The messages of a MIDI cable, told to the engine in C's memory.
ghost use Rattle.std.specs.Prelude.{◌≡◌};
ghost use Rattle.events.specs.Striking.{note_on, bank_from};
ghost use Rattle.events.specs.Keys.{note_off};
ghost use Rattle.events.specs.Controls.{control_change};
ghost use Rattle.events.specs.Programs.{program_change};
ghost use Rattle.events.specs.Bends.{pitch_bend};
ghost use Rattle.cabinet.specs.Keeping.{engine_in, kept_answer};

use cabinet::Flat;

// A key is struck.
#[unsafe(no_mangle)]
pub extern "C" fn thularek_note_on<'a>(
    state: &mut Flat,
    bank: &[u8],
    ram: &'a [i16],
    rom: &'a [i16],
    channel: u8,
    key: u8,
    velocity: u8,
) -> u32
    ensures { (state.new ≡ kept_answer (note_on (bank_from bank.now) ram.now rom.now channel key velocity (engine_in state.old)) state.old) × (result ≡ (note_on (bank_from bank.now) ram.now rom.now channel key velocity (engine_in state.old)).status) }
{
    cabinet::thularek_note_on(state, bank, ram, rom, channel, key, velocity)
}

// A key is let go.
#[unsafe(no_mangle)]
pub extern "C" fn thularek_note_off(state: &mut Flat, channel: u8, key: u8) -> u32
    ensures { (state.new ≡ kept_answer (note_off channel key (engine_in state.old)) state.old) × (result ≡ (note_off channel key (engine_in state.old)).status) }
{
    cabinet::thularek_note_off(state, channel, key)
}

// A control is set.
#[unsafe(no_mangle)]
pub extern "C" fn thularek_control_change(
    state: &mut Flat,
    channel: u8,
    control: u8,
    value: u8,
) -> u32
    ensures { (state.new ≡ kept_answer (control_change channel control value (engine_in state.old)) state.old) × (result ≡ (control_change channel control value (engine_in state.old)).status) }
{
    cabinet::thularek_control_change(state, channel, control, value)
}

// A program is chosen.
#[unsafe(no_mangle)]
pub extern "C" fn thularek_program_change(state: &mut Flat, channel: u8, program: u8) -> u32
    ensures { (state.new ≡ kept_answer (program_change channel program (engine_in state.old)) state.old) × (result ≡ (program_change channel program (engine_in state.old)).status) }
{
    cabinet::thularek_program_change(state, channel, program)
}

// A channel is bent.
#[unsafe(no_mangle)]
pub extern "C" fn thularek_pitch_bend(state: &mut Flat, channel: u8, bend: u16) -> u32
    ensures { (state.new ≡ kept_answer (pitch_bend channel bend (engine_in state.old)) state.old) × (result ≡ (pitch_bend channel bend (engine_in state.old)).status) }
{
    cabinet::thularek_pitch_bend(state, channel, bend)
}
