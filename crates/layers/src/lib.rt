// From a key to layers, and the voices that they start (01, "From a key to layers").

#![tactic(auto)]

mod barren;
mod envelope;
mod extent;
mod layer_search;
mod ranges;
mod spans;
mod tuning;
mod voicing;

pub use layer_search::preset_for;
pub use spans::preset_sheet;
use voice::Voice;
pub use voicing::voices_for;

// A layer: the bag numbers of its preset zone and of its instrument zone.
#[derive(Clone, Copy)]
pub struct Pair {
    pub outer: u32,
    pub inner: u32,
}

// A range of keys or velocities.
#[derive(Clone, Copy)]
pub struct Range {
    pub low: u8,
    pub high: u8,
}

impl Range {
    // All keys, or all velocities.
    pub(crate) const WHOLE: Range = Range { low: 0, high: 127 };
    // The velocities of a note-on.
    pub(crate) const STRUCK: Range = Range { low: 1, high: 127 };
    // No key.
    pub(crate) const NO_KEYS: Range = Range { low: 127, high: 0 };
}

// The keys and the velocities that match a zone.
#[derive(Clone, Copy)]
pub struct Area {
    pub keys: Range,
    pub velocities: Range,
}

// What is told of a preset: the byte where its record begins, its zones, and the lowest and highest key of its layers.
#[derive(Clone, Copy)]
pub struct Sheet {
    pub name: u32,
    pub zones: u32,
    pub low: u8,
    pub high: u8,
}

// Why nothing is told of a place: the bank is not admitted, or the place is at or past the terminal's.
#[derive(Clone, Copy)]
pub enum NoSheet {
    NotAdmitted,
    AtEnd,
}

// The layers that the search found, and how many: it stops at the thirty-third.
#[derive(Clone, Copy)]
pub struct Layers {
    pub count: u32,
    pub pairs: [Pair; 33],
}

// The voices that a key starts, and how many; of 33 or more none is made.
#[derive(Clone, Copy)]
pub struct Struck {
    pub count: u32,
    pub voices: [Voice; 32],
}
