// The C interface: the calls of the engine and of the player over a state that C keeps, and those over bytes alone.
// What C keeps is a flat twin of the player's state, with no enum and no bool in it: any bytes there are a legal state.

#![tactic(auto)]

mod files;
mod keeping;
mod loudness;
mod messages;
mod outputs;
mod pieces;
mod presets;
mod questions;
mod steps;
mod twins;

pub use files::{
    thularek_admit, thularek_bank_fault, thularek_font, thularek_list, thularek_merge,
    thularek_song_test, thularek_wave_heading, thularek_wave_pour, thularek_wave_read,
};
pub use loudness::{thularek_attenuation_for, thularek_sums, thularek_wave_sums};
pub use messages::{
    thularek_control_change, thularek_note_off, thularek_note_on, thularek_pitch_bend,
    thularek_program_change,
};
pub use outputs::{thularek_render, thularek_song_render};
pub use pieces::{thularek_init, thularek_song_start, thularek_song_stop};
pub use presets::{thularek_past_memory, thularek_preset};
pub use questions::{
    thularek_clock, thularek_count, thularek_held_count, thularek_is_silent, thularek_panel_level,
    thularek_panel_stage, thularek_place, thularek_refused, thularek_song_is_over,
    thularek_voice_count,
};
use smf::{Cursor, Event};
pub use steps::{
    thularek_channel_bank, thularek_channel_program, thularek_song_frame, thularek_song_gap,
    thularek_song_next, thularek_song_step,
};
use voice::Channel;

// A stage: 0 delay (t: frames left), 1 attack, 2 hold, 3 decay, 4 sustain, any other release. A number and no enum, since C keeps it.
#[repr(C)]
#[derive(Clone, Copy)]
pub struct FlatStage {
    pub kind: u8,
    pub from: u16,
    pub t: u32,
}

// A voice. A flag is 0, or any other number for yes.
#[repr(C)]
#[derive(Clone, Copy)]
pub struct FlatVoice {
    pub stage: FlatStage,
    pub place: u64,
    pub channel: u8,
    pub key: u8,
    pub velocity: u8,
    pub marked: u8,
    pub class: u16,
    pub rom: u8,
    pub start: u32,
    pub end: u32,
    pub mode: u8,
    pub loopfrom: u32,
    pub loopto: u32,
    pub rate: u16,
    pub pitch: i32,
    pub pan: i16,
    pub attenuation: i32,
    pub attack: u32,
    pub hold: u32,
    pub decay: u32,
    pub sustain: u16,
    pub release: u32,
}

// An engine: its voices' twins, and all else as it is.
#[repr(C)]
#[derive(Clone, Copy)]
pub struct FlatEngine {
    pub voices: [FlatVoice; 32],
    pub channels: [Channel; 16],
    pub sounding: u32,
    pub order: [u8; 32],
    pub clock: u32,
}

// A player: its engine's twin, and whether no event is left as a flag.
#[repr(C)]
#[derive(Clone, Copy)]
pub struct FlatPlayer {
    pub engine: FlatEngine,
    pub cursor: Cursor,
    pub event: Event,
    pub began: u32,
    pub ended: u8,
}

// What C keeps: the last call's number (0: done), its count, the refused events among those that it counts, its place; and the player.
#[repr(C)]
#[derive(Clone, Copy)]
pub struct Flat {
    pub number: u32,
    pub count: u32,
    pub refused: u32,
    pub place: u32,
    pub player: FlatPlayer,
}
