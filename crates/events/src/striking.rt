// Note-on: its tests, and the layers of a lent bank.
ghost use Rattle.std.specs.Prelude.{◌≡◌};
ghost use Rattle.layers.specs.Voicing.{voices_of};
ghost use Rattle.state.specs.Answers.{told_call};
ghost use Rattle.events.specs.Striking.{channel_bank, note_on, bank_from};
ghost use Rattle.events.specs.Internal.Striking.{layers_answer, bank_answer};

use crate::keys::off_key;
use crate::starting::{any_past, strike};
use layers::{preset_for, voices_for};
use records::Parts;
use state::{Engine, Refusal, channel_of, past_two};

// The bank number of a channel: 128 on channel 9.
fn bank_number(e: Engine, channel: u8) -> u16
    ensures { result ≡ channel_bank e channel }
{
    if channel == 9 {
        return 128;
    }
    let c = channel_of(e, channel);
    c.bank as u16
}

// The layers of preset h struck: 4, 8, then done.
fn strike_layers<'a>(
    e: &mut Engine,
    bank: &[u8],
    ram: &'a [i16],
    rom: &'a [i16],
    m: Parts,
    h: u32,
    channel: u8,
    key: u8,
    velocity: u8,
) -> Result<u32, Refusal>
    ensures { told_call result e.new ≡ layers_answer ram.now rom.now channel (voices_of bank.now m h channel key velocity) e.old }
{
    let s = voices_for(bank, m, h, channel, key, velocity);
    let n = s.count as usize;
    if 32 < n {
        return Err(Refusal::TooManyLayers);
    }
    let vs = &s.voices[..n];
    if any_past(ram, rom, vs) {
        return Err(Refusal::PastMemory);
    }
    strike(e, channel, vs);
    Ok(s.count)
}

// The channel's preset struck: 1, 3, then its layers.
fn strike_bank<'a>(
    e: &mut Engine,
    bank: &[u8],
    ram: &'a [i16],
    rom: &'a [i16],
    channel: u8,
    key: u8,
    velocity: u8,
) -> Result<u32, Refusal>
    ensures { told_call result e.new ≡ bank_answer (bank_from bank.now) ram.now rom.now channel key velocity e.old }
{
    if !bank::admitted(bank) {
        return Err(Refusal::NotAdmitted);
    }
    let m = records::parts_of(bank);
    let c = channel_of(*e, channel);
    let number = bank_number(*e, channel);
    match preset_for(bank, m, number, c.program) {
        None => Err(Refusal::NoPreset),
        Some(h) => strike_layers(e, bank, ram, rom, m, h as u32, channel, key, velocity),
    }
}

// Note-on; how many voices it starts. Velocity 0, once the ranges are tested, is a note-off and needs no bank.
pub fn note_on<'a>(
    e: &mut Engine,
    bank: &[u8],
    ram: &'a [i16],
    rom: &'a [i16],
    channel: u8,
    key: u8,
    velocity: u8,
) -> Result<u32, Refusal>
    ensures { told_call result e.new ≡ note_on (bank_from bank.now) ram.now rom.now channel key velocity e.old }
{
    if past_two(channel, key, velocity) {
        return Err(Refusal::OutOfRange);
    }
    if velocity == 0 {
        return Ok(off_key(e, channel, key));
    }
    strike_bank(e, bank, ram, rom, channel, key, velocity)
}
