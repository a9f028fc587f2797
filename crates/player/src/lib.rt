// The player: a song, a bank, an output. It joins the events of a lent Standard MIDI File to the engine, each before the frame that it names.

#![tactic(auto)]

mod acting;
mod asking;
mod cues;
mod pauses;
mod playing;
mod stepping;

pub use asking::{held_count, is_over, is_silent};
pub use cues::{fresh, gap, with_engine};
use engine::Engine;
pub use pauses::{start, stop};
pub use playing::render;
use smf::{Cursor, Event};
pub use stepping::{next_event, next_frame, step};

// Each value of this type is a legal state. A host's direct calls are the engine's, on `engine`.
#[derive(Clone, Copy)]
pub struct Player {
    pub engine: Engine,
    // behind the event that comes next
    pub cursor: Cursor,
    // the event that comes next; none where no event is left, or no song was started
    pub event: Option<Event>,
    // the clock value at which the song began
    pub began: u32,
}

// A player, how many events a render has applied, and how many of these were refused.
#[derive(Clone, Copy)]
pub struct Tally {
    pub player: Player,
    pub applied: u32,
    pub refused: u32,
}

// What a start answers: 0, or 9, 10 or 11 and where the file's first fault is; and the player after.
#[derive(Clone, Copy)]
pub struct Begun {
    pub number: u8,
    pub place: u32,
    pub player: Player,
}

// What a render answers: 01's number (0: done), the events applied, the refused ones among them, and the player after.
#[derive(Clone, Copy)]
pub struct Answer {
    pub number: u8,
    pub applied: u32,
    pub refused: u32,
    pub player: Player,
}

// What a step answers: the engine's number for the event (0: done), how many were applied (0 where none was left), and the player after.
#[derive(Clone, Copy)]
pub struct Stepped {
    pub number: u8,
    pub applied: u32,
    pub player: Player,
}
