// The engine's state: slots, seats, channels and refusals, the fresh state, and what the panel is told.

#![tactic(auto)]

mod answers;
mod board;
mod channels;
mod quiet;
mod reach;
mod seats;
mod slots;

pub use answers::{past_bend, past_one, past_two, status_of};
pub use board::{panel, voice_count};
pub use channels::{channel_of, with_channel};
pub use quiet::fresh;
pub use reach::ends_past;
pub use seats::{seat_of, start_in};
pub use slots::{flag, freed_if, of_channel, slot_of, with_word};
use voice::{Channel, Voice};

// Each value of this type is a legal state.
#[derive(Clone, Copy)]
pub struct Engine {
    pub voices: [Voice; 32],
    pub channels: [Channel; 16],
    // which slots sound, a bit for each
    pub sounding: u32,
    // the slots from the oldest start to the newest
    pub order: [u8; 32],
    pub clock: u32,
}

// Why a call is refused; each with its number, 0 being that of a call that is done. A refused call leaves the engine as it was.
#[derive(Clone, Copy, PartialEq, Eq)]
pub enum Refusal {
    // the bank has a fault
    NotAdmitted = 1,
    // a channel past 15, a bend past 16,383, or another number past 127
    OutOfRange = 2,
    // the bank has no preset of the channel's bank and program
    NoPreset = 3,
    // the key starts more than 32 layers
    TooManyLayers = 4,
    // the clock value is 2^31 frames away or more, or lies behind
    ClockBehind = 5,
    // more than 4,096 frames in one render
    TooManyFrames = 6,
    // the output is shorter than two numbers a frame
    OutputTooShort = 7,
    // a sample ends past the memory that was lent
    PastMemory = 8,
}
