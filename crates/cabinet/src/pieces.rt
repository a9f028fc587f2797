// The fresh state, and a song's start and stop.
ghost use Rattle.std.specs.Prelude.{◌≡◌};
ghost use Rattle.player.specs.Cues.{idle};
ghost use Rattle.player.specs.Pauses.{started, stopped};
ghost use Rattle.cabinet.specs.Keeping.{player_in, kept, kept_start};

use crate::Flat;
use crate::keeping::{keep, keep_start, player_in};

// A fresh engine, and no song. Whatever stood in C's memory is gone.
pub fn thularek_init(state: &mut Flat) -> u32
    ensures { (state.new ≡ kept 0 0 0 0 idle) × (result ≡ 0) }
{
    *state = keep(0, 0, 0, 0, player::fresh());
    state.number
}

// A song starts at the clock's value. A refused file changes nothing of the player.
pub fn thularek_song_start(state: &mut Flat, song: &[u8]) -> u32
    ensures { (state.new ≡ kept_start (started song.now (player_in state.old))) × (result ≡ (started song.now (player_in state.old)).number) }
{
    *state = keep_start(player::start(player_in(*state), song));
    state.number
}

// The song stops.
pub fn thularek_song_stop(state: &mut Flat) -> u32
    ensures { (state.new ≡ kept 0 0 0 0 (stopped (player_in state.old))) × (result ≡ 0) }
{
    *state = keep(0, 0, 0, 0, player::stop(player_in(*state)));
    state.number
}
