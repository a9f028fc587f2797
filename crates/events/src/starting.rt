// Note-on past its tests: rivals of a class freed, and layers started in slots.
ghost use Rattle.std.specs.Prelude.{◌≡◌, not, ◌&&◌, ◌||◌, ◌≤◌, eqb, take};
ghost use Rattle.state.specs.Reach.{ends_past};
ghost use Rattle.events.specs.Starting.{any_past, class_in, rival, cleared, start, start_all, struck};
ghost use Rattle.events.specs.Internal.Starting.{started_of, begin};

use crate::Begun;
use arith::insert;
use state::{Engine, ends_past, flag, freed_if, of_channel, seat_of, slot_of, start_in, with_word};
use voice::{Slot, Voice};

// The window of one of the voices ends past its memory.
pub fn any_past(ram: &[i16], rom: &[i16], voices: &[Voice]) -> bool
    ensures { result ≡ any_past ram.now rom.now voices.now }
{
    voices.iter().any(|v| ends_past(ram, rom, *v))
}

// The class is one of the voices', and not 0.
fn class_in(class: u16, voices: &[Voice]) -> bool
    ensures { result ≡ class_in class voices.now }
{
    voices.iter().any(|v| class != 0 && v.class == class)
}

// A voice of the channel that has the same nonzero class as one of the layers.
fn is_rival(s: Slot, channel: u8, voices: &[Voice]) -> bool
    ensures { result ≡ rival channel voices.now s }
{
    of_channel(s, channel) && class_in(s.voice.class, voices)
}

// The rivals freed.
fn clear_rivals(e: Engine, channel: u8, voices: &[Voice]) -> Engine
    ensures { result ≡ cleared channel voices.now e }
{
    let mut word: u32 = 0;
    for i in 0..32 {
        let s = slot_of(e, i);
        let t = freed_if(is_rival(s, channel, voices), s);
        word += flag(t.sounding, i as u32);
    }
    with_word(e, word)
}

// One layer started.
fn start_one(b: Begun, v: Voice) -> Begun
    ensures { started_of result ≡ start v (started_of b) }
{
    let i = seat_of(b.engine, b.mine);
    Begun {
        engine: start_in(b.engine, i, v),
        mine: insert(b.mine, i as u32),
    }
}

// The layers started in order.
fn start_all(e: Engine, voices: &[Voice]) -> Begun
    ensures { started_of result ≡ start_all voices.now (begin e) }
{
    let mut b = Begun { engine: e, mine: 0 };
    for v in voices {
        b = start_one(b, *v);
    }
    b
}

// The voices struck: rivals freed first, then each started in its slot.
pub fn strike(e: &mut Engine, channel: u8, voices: &[Voice])
    ensures { e.new ≡ (struck channel voices.now e.old).engine }
{
    let x = clear_rivals(*e, channel, voices);
    let b = start_all(x, voices);
    *e = b.engine;
}
