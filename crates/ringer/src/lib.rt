// Plays a case's commands on a player: what the programs that play cases share.

#![tactic(auto)]

mod calls;
mod letters;

pub use calls::{Called, call, render};
pub use letters::{Kind, kind_of, lent_numbers};
