// What C asks of the state that it keeps. Nothing changes by it.
ghost use Rattle.std.specs.Prelude.{◌≡◌};
ghost use Rattle.state.specs.Board.{ask, voice_count};
ghost use Rattle.player.specs.Asking.{is_silent, held_count};
ghost use Rattle.player.specs.Cues.{song_over};
ghost use Rattle.cabinet.specs.Twins.{flag_to};
ghost use Rattle.cabinet.specs.Keeping.{player_in, engine_in};
ghost use Rattle.cabinet.specs.Questions.{lamp_stage, lamp_level};

use crate::Flat;
use crate::keeping::player_in;
use voice::Shown;

// The last call's count: the voices that a message started, let off or changed, or the events that a song's render or step applied.
pub fn thularek_count(state: &Flat) -> u32
    ensures { result ≡ state.now.count }
{
    state.count
}

// The refused events among those that the last render of a song, or a step, applied.
pub fn thularek_refused(state: &Flat) -> u32
    ensures { result ≡ state.now.refused }
{
    state.refused
}

// The place of the first fault of a song that the last call refused to start.
pub fn thularek_place(state: &Flat) -> u32
    ensures { result ≡ state.now.place }
{
    state.place
}

// The clock: the frame that the next render begins with.
#[tactic(auto, unfolding(crate::specs::Twins::player_of, crate::specs::Twins::engine_of))]
pub fn thularek_clock(state: &Flat) -> u32
    ensures { result ≡ (engine_in state.now).clock }
{
    state.player.engine.clock
}

// 1 where no event of the song is left.
pub fn thularek_song_is_over(state: &Flat) -> u32
    ensures { result ≡ flag_to (song_over (player_in state.now)) }
{
    u32::from(player::is_over(player_in(*state)))
}

// 1 where no voice sounds.
pub fn thularek_is_silent(state: &Flat) -> u32
    ensures { result ≡ flag_to (is_silent (player_in state.now)) }
{
    u32::from(player::is_silent(player_in(*state)))
}

// How many voices sound.
pub fn thularek_voice_count(state: &Flat) -> u32
    ensures { result ≡ voice_count (engine_in state.now) }
{
    engine::voice_count(player_in(*state).engine)
}

// How many voices are held.
pub fn thularek_held_count(state: &Flat) -> u32
    ensures { result ≡ held_count (player_in state.now) }
{
    player::held_count(player_in(*state))
}

// What the panel is told, as a number.
fn lamp_stage(x: Shown) -> u32
    ensures { result ≡ lamp_stage x }
{
    match x {
        Shown::Delay => 0,
        Shown::Attack { level: _ } => 1,
        Shown::Hold => 2,
        Shown::Decay { level: _ } => 3,
        Shown::Sustain { level: _ } => 4,
        Shown::Release { level: _ } => 5,
        Shown::Free => 6,
        Shown::Refused => 7,
    }
}

// The stage of a slot's voice; 6 where the slot is free, 7 past the last slot.
pub fn thularek_panel_stage(state: &Flat, slot: u8) -> u32
    ensures { result ≡ lamp_stage (ask slot (engine_in state.now)) }
{
    lamp_stage(engine::panel(player_in(*state).engine, slot))
}

// Its level; 0 where the stage has none.
fn lamp_level(x: Shown) -> f32
    ensures { result ≡ lamp_level x }
{
    match x {
        Shown::Delay => 0.0,
        Shown::Attack { level } => level,
        Shown::Hold => 0.0,
        Shown::Decay { level } => level,
        Shown::Sustain { level } => level,
        Shown::Release { level } => level,
        Shown::Free => 0.0,
        Shown::Refused => 0.0,
    }
}

// The level of a slot's voice, 0 to 1.
pub fn thularek_panel_level(state: &Flat, slot: u8) -> f32
    ensures { result ≡ lamp_level (ask slot (engine_in state.now)) }
{
    lamp_level(engine::panel(player_in(*state).engine, slot))
}
