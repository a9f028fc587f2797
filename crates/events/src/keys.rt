// Note-off, and which voices are let off.
ghost use Rattle.std.specs.Prelude.{◌≡◌, cond};
ghost use Rattle.voice.specs.Release.{release};
ghost use Rattle.state.specs.Answers.{told_call, done};
ghost use Rattle.events.specs.Keys.{held, held_key, pedal_down, mark, let_off, off_key, note_off, pedal_held};
ghost use Rattle.events.specs.Internal.Keys.{picked, off_all};

use crate::Whom;
use curves::GainTable;
use state::{Engine, Refusal, channel_of, flag, of_channel, past_one, slot_of, with_word};
use voice::{Slot, Voice, is_released, let_off, with_moved};

// A held voice of the channel: neither released nor marked.
pub fn is_held(s: Slot, channel: u8) -> bool
    ensures { result ≡ held channel s }
{
    if !of_channel(s, channel) {
        return false;
    }
    let v = s.voice;
    let g = v.stage;
    if is_released(g) {
        return false;
    }
    !v.marked
}

// .. and of the struck key.
fn is_held_key(s: Slot, channel: u8, key: u8) -> bool
    ensures { result ≡ held_key channel key s }
{
    if !is_held(s, channel) {
        return false;
    }
    let v = s.voice;
    v.key == key
}

// A voice of the channel that the pedal holds.
fn is_pedal_held(s: Slot, channel: u8) -> bool
    ensures { result ≡ pedal_held channel s }
{
    if !of_channel(s, channel) {
        return false;
    }
    let v = s.voice;
    v.marked
}

// The slot is one of those that are let off.
fn is_picked(s: Slot, channel: u8, whom: Whom) -> bool
    ensures { result ≡ picked channel whom s }
{
    match whom {
        Whom::Key { key } => is_held_key(s, channel, key),
        Whom::Every => is_held(s, channel),
        Whom::Marked => is_pedal_held(s, channel),
    }
}

// Marked while the pedal is down, else released.
fn off_voice(v: Voice, down: bool, g: &GainTable) -> Voice
    ensures { result ≡ cond down (mark v) (release v) }
{
    if down {
        let s = v.stage;
        return with_moved(v, s, v.place, true);
    }
    let_off(v, g)
}

// The slot let off where it is picked.
fn off_one(s: Slot, channel: u8, whom: Whom, down: bool, g: &GainTable) -> Slot
    ensures { result ≡ let_off down (picked channel whom) s }
{
    if !is_picked(s, channel, whom) {
        return s;
    }
    let v = s.voice;
    Slot {
        sounding: s.sounding,
        voice: off_voice(v, down, g),
    }
}

// How many are picked, and the state with all of them let off.
pub(crate) fn off_all(
    e: Engine,
    channel: u8,
    whom: Whom,
    down: bool,
    g: &GainTable,
) -> (u32, Engine)
    ensures { done result.0 result.1 ≡ off_all channel whom down e }
{
    let mut x = e;
    let mut word: u32 = 0;
    let mut count: u32 = 0;
    for i in 0..32 {
        let s = slot_of(e, i);
        count += u32::from(is_picked(s, channel, whom));
        let t = off_one(s, channel, whom, down, g);
        x.voices[i] = t.voice;
        word += flag(t.sounding, i as u32);
    }
    (count, with_word(x, word))
}

// The pedal is down: control 64 is 64 or more.
pub fn is_down(e: Engine, channel: u8) -> bool
    ensures { result ≡ pedal_down e channel }
{
    let c = channel_of(e, channel);
    64 <= c.pedal
}

// A note-off past its tests; how many voices it lets off.
pub(crate) fn off_key(e: &mut Engine, channel: u8, key: u8) -> u32
    ensures { done result e.new ≡ off_key channel key e.old }
{
    let g = GainTable::new();
    let down = is_down(*e, channel);
    let (count, after) = off_all(*e, channel, Whom::Key { key }, down, &g);
    *e = after;
    count
}

// Note-off: releases each held voice of channel and key, or marks it while the pedal is down; how many they were.
pub fn note_off(e: &mut Engine, channel: u8, key: u8) -> Result<u32, Refusal>
    ensures { told_call result e.new ≡ note_off channel key e.old }
{
    if past_one(channel, key) {
        return Err(Refusal::OutOfRange);
    }
    Ok(off_key(e, channel, key))
}
