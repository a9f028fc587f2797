// The lines of a struck key: how many layers, and each voice's numbers.
use cases::Text;
use layers::Struck;
use voice::{Stage, Voice};

// A number that may be below 0, behind a space.
fn signed(text: &mut Text, z: i32) {
    text.put(b' ');
    text.signed(z);
}

// The frames of the delay in which a voice starts.
fn delay_of(s: Stage) -> u32 {
    match s {
        Stage::Delay { left } => left,
        _ => 0,
    }
}

// Frames and sustain.
fn times(text: &mut Text, v: Voice) {
    text.spaced(u64::from(delay_of(v.stage)));
    text.spaced(u64::from(v.attack));
    text.spaced(u64::from(v.hold));
    text.spaced(u64::from(v.decay));
    text.spaced(u64::from(v.release));
    text.spaced(u64::from(v.sustain));
}

// Pan, class, attenuation, pitch and rate.
fn levels(text: &mut Text, v: Voice) {
    signed(text, i32::from(v.pan));
    signed(text, i32::from(v.class.cast_signed()));
    signed(text, v.attenuation);
    signed(text, v.pitch);
    text.spaced(u64::from(v.rate));
}

// Mode, memory and window.
fn window(text: &mut Text, v: Voice) {
    text.spaced(u64::from(v.mode));
    text.spaced(u64::from(v.rom));
    text.spaced(u64::from(v.start));
    text.spaced(u64::from(v.end));
}

// A loop's places, only where it loops.
fn loop_places(text: &mut Text, v: Voice) {
    if v.mode == 0 {
        text.word(b" 0 0");
    } else {
        text.spaced(u64::from(v.loopfrom));
        text.spaced(u64::from(v.loopto));
    }
}

// A voice's line.
fn voice_line(text: &mut Text, v: Voice) {
    text.put(b'v');
    times(text, v);
    levels(text, v);
    window(text, v);
    loop_places(text, v);
    text.put(b'\n');
}

// How many layers there are, and, where they are at most 32, their voices.
pub fn found(text: &mut Text, s: Struck) {
    text.put(b'h');
    text.spaced(u64::from(s.count));
    text.put(b'\n');
    if s.count <= 32 {
        for v in cases::first(&s.voices, s.count as usize) {
            voice_line(text, *v);
        }
    }
}
