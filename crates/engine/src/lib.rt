// The engine: the calls that a host makes. The state and the events stand in crates of their own, and are passed on here.

#![tactic(auto)]

mod adding;
mod banks;
mod mixer;
mod presets;
// its tests and its frames are the player's too
pub mod rendering;
mod summing;

pub use banks::{admit, list};
pub use events::{control_change, note_off, note_on, pitch_bend, program_change};
pub use presets::{channel_bank, channel_program};
pub use rendering::render;
pub use state::{Engine, Refusal, fresh, panel, status_of, voice_count};
pub use summing::sums;

// A stereo frame.
#[derive(Clone, Copy)]
pub struct Frame {
    pub left: f32,
    pub right: f32,
}
