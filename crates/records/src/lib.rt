// The bank as records: chunks, sides, zones, values and windows (01, "Bank admission").

#![tactic(auto)]

mod amounts;
mod chunks;
mod headers;
mod memory;
mod sides;
mod windows;
mod zones;

pub use amounts::{poured, wide};
pub use chunks::{chunk_at, records_in, size};
pub use headers::{bank_of, correction_of, program_of, rate_of, rom_of, root_byte};
pub use memory::window_of;
pub use sides::{bag_of, gen_of, mod_of, parts_of, times};
pub use windows::{end_of, good_window, loop_end_of, loop_start_of, mode_of, start_of};
pub use zones::{amount, global_of, has, link_at, zone_at, zone_count};

// Presets, or instruments: where the lists of one side begin and how many records each has, the terminal one too.
#[derive(Clone, Copy)]
pub struct Side {
    pub heads: u32,
    pub width: u8,
    pub index: u8,
    pub nheads: u32,
    pub bags: u32,
    pub nbags: u32,
    pub nmods: u32,
    pub gens: u32,
    pub ngens: u32,
    pub nlinks: u32,
    pub closing: u16,
}

// Where all of a bank's lists are; `samples` is where the sample headers begin.
#[derive(Clone, Copy)]
pub struct Parts {
    pub presets: Side,
    pub instruments: Side,
    pub samples: u32,
}

// A zone: its first generator, how many of them count, and the 41 or 53 behind those.
#[derive(Clone, Copy)]
pub struct Zone {
    pub from: u32,
    pub count: u32,
    pub sounding: bool,
    pub link: u16,
}
