// Case files and traces: what the programs that play cases share. They lend a room to read into.

#![tactic(auto)]

mod commands;
mod hash;
mod input;
mod lending;
mod lines;
mod writing;

pub use commands::Command;
pub use hash::{Hashed, fnv};
pub use input::{Bad, Input, Item};
pub use lending::{Held, Loan, first};
pub use lines::name;
pub use writing::{Text, magnitude};
