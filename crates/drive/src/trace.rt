// The state in a line of a trace.
use cases::Text;
use engine::Engine;
use voice::Shown;

// A stage, with its level where it carries one.
pub fn stage(text: &mut Text, s: Shown) {
    match s {
        Shown::Refused => {}
        Shown::Free => text.put(b'f'),
        Shown::Delay => text.put(b'd'),
        Shown::Attack { level } => text.level(b'a', level),
        Shown::Hold => text.put(b'h'),
        Shown::Decay { level } => text.level(b'y', level),
        Shown::Sustain { level } => text.level(b'u', level),
        Shown::Release { level } => text.level(b'r', level),
    }
}

// The slots that sound, in order, each behind a space.
fn slots(text: &mut Text, e: Engine) {
    for i in 0..32u8 {
        if arith::has(e.sounding, u32::from(i)) {
            text.spaced(u64::from(i));
            stage(text, engine::panel(e, i));
        }
    }
}

// The state, to the line's end.
pub fn state(text: &mut Text, e: Engine) {
    text.state(e.clock, e.sounding);
    slots(text, e);
    text.put(b'\n');
}
