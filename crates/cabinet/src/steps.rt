// A song event by event: a step over the event that comes next, what C asks of it, and what a channel plays.
ghost use Rattle.std.specs.Prelude.{◌≡◌};
ghost use Rattle.engine.specs.Presets.{sought_program, sought_bank};
ghost use Rattle.player.specs.Cues.{gap_of};
ghost use Rattle.player.specs.Stepping.{step_taken, next_event, next_frame};
ghost use Rattle.cabinet.specs.Keeping.{player_in, engine_in};
ghost use Rattle.cabinet.specs.Steps.{kept_step};

use crate::Flat;
use crate::keeping::{keep, player_in};
use player::Stepped;

// What C keeps of a step.
fn keep_step(x: Stepped) -> Flat
    ensures { result ≡ kept_step x }
{
    let refused = u32::from(x.number != 0);
    keep(x.number, x.applied, refused, 0, x.player)
}

// The event that comes next acts now.
pub fn thularek_song_step<'a>(
    state: &mut Flat,
    song: &[u8],
    bank: &[u8],
    ram: &'a [i16],
    rom: &'a [i16],
) -> u32
    ensures { (state.new ≡ kept_step (step_taken song.now bank.now ram.now rom.now (player_in state.old))) × (result ≡ (step_taken song.now bank.now ram.now rom.now (player_in state.old)).number) }
{
    let p = player_in(*state);
    *state = keep_step(player::step(p, song, bank, ram, rom));
    state.number
}

// The frames up to the event that comes next, at most so many; all of them where none is left.
pub fn thularek_song_gap(state: &Flat, most: u32) -> u32
    ensures { result ≡ gap_of (player_in state.now) most }
{
    player::gap(player_in(*state), most)
}

// The three bytes of the event that comes next, its status lowest; 0 where none is left.
pub fn thularek_song_next(state: &Flat) -> u32
    ensures { result ≡ next_event (player_in state.now) }
{
    player::next_event(player_in(*state))
}

// Its frame, counted from the song's start; 0 where none is left.
pub fn thularek_song_frame(state: &Flat) -> u32
    ensures { result ≡ next_frame (player_in state.now) }
{
    player::next_frame(player_in(*state))
}

// The program that a note-on of a channel looks for; 65,535 past channel 15.
pub fn thularek_channel_program(state: &Flat, channel: u8) -> u32
    ensures { result ≡ sought_program channel (engine_in state.now) }
{
    engine::channel_program(player_in(*state).engine, channel)
}

// The bank number that it looks for, 128 on channel 9; 65,535 past channel 15.
pub fn thularek_channel_bank(state: &Flat, channel: u8) -> u32
    ensures { result ≡ sought_bank channel (engine_in state.now) }
{
    engine::channel_bank(player_in(*state).engine, channel)
}
