// The C interface as C links it: each function of crate cabinet that C calls, exported under its name, with the same clauses.

#![tactic(auto)]

mod files;
mod loudness;
mod messages;
mod outputs;
mod pieces;
mod presets;
mod questions;
mod steps;
