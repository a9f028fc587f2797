// What the crates share: numbers in bytes, a word as a set of slots, numbers held to a range.

#![tactic(auto)]

mod bytes;
mod holds;
mod words;

pub use bytes::{byte, signed16, u16_at, u32_at};
pub use holds::{hold, least, less};
pub use words::{count, has, insert, lowest_clear};
