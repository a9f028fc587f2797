// A voice: its record, one frame of it, n frames of it, its release, and what the panel is told of it.

#![tactic(auto)]

mod calm;
mod changes;
mod frames;
mod motion;
mod pace;
mod panel;
mod reading;
mod release;
mod rounds;
mod sides;
mod sound;
mod stages;
mod stretch;
mod wait;
mod way;

pub use changes::{no_voice, with_moved};
pub use frames::run;
pub use panel::show;
pub use release::let_off;
pub use stages::is_released;

// A stage, with the frames already spent in it (in delay: those left).
#[derive(Clone, Copy)]
pub enum Stage {
    Delay { left: u32 },
    Attack { t: u32 },
    Hold { t: u32 },
    Decay { t: u32 },
    Sustain,
    Release { from: u16, t: u32 },
}

// Each value of this type is a legal voice.
#[derive(Clone, Copy)]
pub struct Voice {
    pub stage: Stage,
    // what is read, in 2^-24 samples from the window's start
    pub place: u64,
    // as struck
    pub channel: u8,
    pub key: u8,
    pub velocity: u8,
    // held by the pedal
    pub marked: bool,
    pub class: u16,
    // the window, in its memory
    pub rom: bool,
    pub start: u32,
    pub end: u32,
    // 0, 1 or 3, and the loop in samples from the window's start
    pub mode: u8,
    pub loopfrom: u32,
    pub loopto: u32,
    pub rate: u16,
    // cents, without the bend
    pub pitch: i32,
    pub pan: i16,
    // generator 48 and velocity, in cB
    pub attenuation: i32,
    // frames; sustain in cB
    pub attack: u32,
    pub hold: u32,
    pub decay: u32,
    pub sustain: u16,
    pub release: u32,
}

// A channel, as the messages left it. C keeps it as it is.
#[repr(C)]
#[derive(Clone, Copy)]
pub struct Channel {
    pub program: u8,
    // the bank that control 0 stored, and the one that the last program change took
    pub stored: u8,
    pub bank: u8,
    pub bend: u16,
    // controls 7, 11 and 64
    pub volume: u8,
    pub expression: u8,
    pub pedal: u8,
}

// A slot: whether it sounds, and its record. No Option, since a free slot keeps its record (`free` says so), as the state's array does.
#[derive(Clone, Copy)]
pub struct Slot {
    pub sounding: bool,
    pub voice: Voice,
}

// What a frame makes of a slot.
#[derive(Clone, Copy)]
pub struct Framed {
    pub slot: Slot,
    pub left: i32,
    pub right: i32,
}

// What the panel is told: a slot past 31 is refused. One enum of all cases is the form that is settled for it.
#[derive(Clone, Copy)]
pub enum Shown {
    Refused,
    Free,
    Delay,
    Attack { level: f32 },
    Hold,
    Decay { level: f32 },
    Sustain { level: f32 },
    Release { level: f32 },
}
