// What a host tells the engine: note-on, note-off, control, program and bend changes.

#![tactic(auto)]

mod bends;
mod controls;
mod keys;
mod programs;
mod starting;
mod striking;

pub use bends::pitch_bend;
pub use controls::control_change;
pub use keys::{is_held, note_off};
pub use programs::program_change;
use state::Engine;
pub use striking::note_on;

// Which of a channel's voices are let off: the held ones of a key, all the held ones, or those that the pedal holds.
#[derive(Clone, Copy)]
pub enum Whom {
    Key { key: u8 },
    Every,
    Marked,
}

// A state, and the word of the slots that a note-on has started in it.
#[derive(Clone, Copy)]
pub struct Begun {
    pub engine: Engine,
    pub mine: u32,
}
