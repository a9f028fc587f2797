// The lines of each function, over its list of arguments.
use crate::arguments::{bend_at, cents_at, level_at, rate_at, time_at};
use crate::rows::{line, signed_line};
use cases::Text;
use curves::{GainTable, OctaveTable};

// The step of a pitch at a rate.
fn step_line(text: &mut Text, t: &OctaveTable, cents: i32, rate: u16) {
    text.word(b"step ");
    text.signed(cents);
    line(text, b" ", i32::from(rate), t.step(cents, rate));
}

// The steps of a pitch at each rate.
fn steps_at(text: &mut Text, t: &OctaveTable, cents: i32) {
    for i in 0..10 {
        step_line(text, t, cents, rate_at(i));
    }
}

// The steps of each pitch.
pub fn steps(text: &mut Text, t: &OctaveTable) {
    for i in 0..161 {
        steps_at(text, t, cents_at(i));
    }
}

// The frames of a time, with either upper hold.
fn time_lines(text: &mut Text, t: &OctaveTable, time: i32) {
    line(text, b"frames ", time, t.long_frames(time));
    line(text, b"frames5000 ", time, t.short_frames(time));
}

// The frames of each time.
pub fn times(text: &mut Text, t: &OctaveTable) {
    for i in 0..175 {
        time_lines(text, t, time_at(i));
    }
}

// The gains, and five past the last.
pub fn gains(text: &mut Text, g: &GainTable) {
    for a in 0..1446u16 {
        line(text, b"gain ", i32::from(a), g.gain(u64::from(a)));
    }
}

// The attenuation of each velocity or control from the first on.
pub fn attenuations(text: &mut Text, name: &[u8], first: u8) {
    for v in first..128 {
        line(text, name, i32::from(v), u32::from(curves::cb_of(v)));
    }
}

// The least attenuation for a level.
fn level_line(text: &mut Text, g: &GainTable, level: u32) {
    text.word(b"least ");
    text.decimal(u64::from(level));
    text.word(b" = ");
    text.decimal(u64::from(g.least_cb(level)));
    text.put(b'\n');
}

// The least attenuation for each level.
pub fn levels(text: &mut Text, g: &GainTable) {
    for i in 0..109 {
        level_line(text, g, level_at(i));
    }
}

// The cents of each bend.
pub fn bends(text: &mut Text) {
    for i in 0..406 {
        let bend = bend_at(i);
        signed_line(text, b"bend ", bend, curves::bend_cents(bend));
    }
}
