// One slot of a state, and the word that says which slots sound.
ghost use Rattle.std.specs.Prelude.{◌≡◌, cond, ◌<◌, ◌^◌};
ghost use Rattle.voice.specs.Changes.{free};
ghost use Rattle.state.specs.Internal.Slots.{with_word};
ghost use Rattle.state.specs.Slots.{slot_at, of_channel};

use crate::Engine;
use arith::has;
use voice::Slot;

// The state with another word.
pub fn with_word(e: Engine, word: u32) -> Engine
    ensures { result ≡ with_word e word }
{
    let mut x = e;
    x.sounding = word;
    x
}

// Slot i.
pub fn slot_of(e: Engine, i: usize) -> Slot
    requires { i < 32 }
    ensures { result ≡ slot_at e i }
{
    let v = e.voices[i];
    Slot {
        sounding: has(e.sounding, i as u32),
        voice: v,
    }
}

// The bit of slot i in a word.
pub fn flag(on: bool, i: u32) -> u32
    requires { i < 32 }
    ensures { result ≡ cond on (2 ^ i) 0 }
{
    if on { 1 << i } else { 0 }
}

// It sounds, and is of the channel.
pub fn of_channel(s: Slot, channel: u8) -> bool
    ensures { result ≡ of_channel channel s }
{
    if !s.sounding {
        return false;
    }
    let v = s.voice;
    v.channel == channel
}

// The slot freed where the test held; its record stays.
pub fn freed_if(freed: bool, s: Slot) -> Slot
    ensures { result ≡ cond freed (free s.voice) s }
{
    if freed {
        let v = s.voice;
        return Slot {
            sounding: false,
            voice: v,
        };
    }
    s
}
