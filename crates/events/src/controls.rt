// Control change.
ghost use Rattle.std.specs.Prelude.{◌≡◌, ◌<◌};
ghost use Rattle.state.specs.Answers.{told_call};
ghost use Rattle.events.specs.Controls.{with_stored, with_volume, with_expression, silence, pedal, controlled, control_change};
ghost use Rattle.events.specs.Keys.{held, off};

use crate::Whom;
use crate::keys::{is_down, off_all};
use curves::GainTable;
use state::{
    Engine, Refusal, channel_of, flag, freed_if, of_channel, past_two, slot_of, with_channel,
    with_word,
};
use voice::Channel;

// Control 120: the channel's voices are freed.
fn silenced(e: Engine, channel: u8) -> Engine
    ensures { result ≡ silence channel e }
{
    let mut word: u32 = 0;
    for i in 0..32 {
        let s = slot_of(e, i);
        let t = freed_if(of_channel(s, channel), s);
        word += flag(t.sounding, i as u32);
    }
    with_word(e, word)
}

// Control 123: as a note-off for all keys.
fn every_off(e: Engine, channel: u8) -> Engine
    ensures { result ≡ off channel (held channel) e }
{
    let g = GainTable::new();
    let down = is_down(e, channel);
    off_all(e, channel, Whom::Every, down, &g).1
}

// Control 64: below 64 it releases the voices that the pedal holds.
fn pedal_set(e: Engine, channel: u8, value: u8) -> Engine
    requires { channel < 16 }
    ensures { result ≡ pedal channel value e }
{
    let mut c = channel_of(e, channel);
    c.pedal = value;
    let x = with_channel(e, channel, c);
    if 64 <= value {
        return x;
    }
    let g = GainTable::new();
    off_all(x, channel, Whom::Marked, false, &g).1
}

// Control 0: a bank that the next program change takes.
fn with_stored(c: Channel, value: u8) -> Channel
    ensures { result ≡ with_stored c value }
{
    let mut d = c;
    d.stored = value;
    d
}

// Control 7.
fn with_volume(c: Channel, value: u8) -> Channel
    ensures { result ≡ with_volume c value }
{
    let mut d = c;
    d.volume = value;
    d
}

// Control 11.
fn with_expression(c: Channel, value: u8) -> Channel
    ensures { result ≡ with_expression c value }
{
    let mut d = c;
    d.expression = value;
    d
}

// A control past its tests; those not named do nothing.
fn control_one(e: Engine, channel: u8, control: u8, value: u8) -> Engine
    requires { channel < 16 }
    ensures { result ≡ controlled channel control value e }
{
    let c = channel_of(e, channel);
    match control {
        0 => with_channel(e, channel, with_stored(c, value)),
        7 => with_channel(e, channel, with_volume(c, value)),
        11 => with_channel(e, channel, with_expression(c, value)),
        64 => pedal_set(e, channel, value),
        120 => silenced(e, channel),
        123 => every_off(e, channel),
        _ => e,
    }
}

// Control change. It counts no voices.
pub fn control_change(e: &mut Engine, channel: u8, control: u8, value: u8) -> Result<u32, Refusal>
    ensures { told_call result e.new ≡ control_change channel control value e.old }
{
    if past_two(channel, control, value) {
        return Err(Refusal::OutOfRange);
    }
    *e = control_one(*e, channel, control, value);
    Ok(0)
}
