// A voice with one part replaced, and the voice of zeros.
ghost use Rattle.std.specs.Prelude.{◌≡◌};
ghost use Rattle.voice.specs.Changes.{blank, with_moved};

use crate::{Stage, Voice};

// The voice at another stage and place, and with another mark.
pub fn with_moved(v: Voice, s: Stage, p: u64, m: bool) -> Voice
    ensures { result ≡ with_moved v s p m }
{
    Voice {
        stage: s,
        place: p,
        marked: m,
        ..v
    }
}

// The voice of zeros.
pub fn no_voice() -> Voice
    ensures { result ≡ blank }
{
    Voice {
        stage: Stage::Delay { left: 0 },
        place: 0,
        channel: 0,
        key: 0,
        velocity: 0,
        marked: false,
        class: 0,
        rom: false,
        start: 0,
        end: 0,
        mode: 0,
        loopfrom: 0,
        loopto: 0,
        rate: 0,
        pitch: 0,
        pan: 0,
        attenuation: 0,
        attack: 0,
        hold: 0,
        decay: 0,
        sustain: 0,
        release: 0,
    }
}
