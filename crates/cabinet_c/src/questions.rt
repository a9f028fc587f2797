// What C asks of the state that it keeps. Nothing changes by it.
ghost use Rattle.std.specs.Prelude.{◌≡◌};
ghost use Rattle.state.specs.Board.{ask, voice_count};
ghost use Rattle.player.specs.Asking.{is_silent, held_count};
ghost use Rattle.player.specs.Cues.{song_over};
ghost use Rattle.cabinet.specs.Twins.{flag_to};
ghost use Rattle.cabinet.specs.Keeping.{player_in, engine_in};
ghost use Rattle.cabinet.specs.Questions.{lamp_stage, lamp_level};

use cabinet::Flat;

// The last call's count: the voices that a message started, let off or changed, or the events that a song's render or step applied.
#[unsafe(no_mangle)]
pub extern "C" fn thularek_count(state: &Flat) -> u32
    ensures { result ≡ state.now.count }
{
    cabinet::thularek_count(state)
}

// The refused events among those that the last render of a song, or a step, applied.
#[unsafe(no_mangle)]
pub extern "C" fn thularek_refused(state: &Flat) -> u32
    ensures { result ≡ state.now.refused }
{
    cabinet::thularek_refused(state)
}

// The place of the first fault of a song that the last call refused to start.
#[unsafe(no_mangle)]
pub extern "C" fn thularek_place(state: &Flat) -> u32
    ensures { result ≡ state.now.place }
{
    cabinet::thularek_place(state)
}

// The clock: the frame that the next render begins with.
#[unsafe(no_mangle)]
pub extern "C" fn thularek_clock(state: &Flat) -> u32
    ensures { result ≡ (engine_in state.now).clock }
{
    cabinet::thularek_clock(state)
}

// 1 where no event of the song is left.
#[unsafe(no_mangle)]
pub extern "C" fn thularek_song_is_over(state: &Flat) -> u32
    ensures { result ≡ flag_to (song_over (player_in state.now)) }
{
    cabinet::thularek_song_is_over(state)
}

// 1 where no voice sounds.
#[unsafe(no_mangle)]
pub extern "C" fn thularek_is_silent(state: &Flat) -> u32
    ensures { result ≡ flag_to (is_silent (player_in state.now)) }
{
    cabinet::thularek_is_silent(state)
}

// How many voices sound.
#[unsafe(no_mangle)]
pub extern "C" fn thularek_voice_count(state: &Flat) -> u32
    ensures { result ≡ voice_count (engine_in state.now) }
{
    cabinet::thularek_voice_count(state)
}

// How many voices are held.
#[unsafe(no_mangle)]
pub extern "C" fn thularek_held_count(state: &Flat) -> u32
    ensures { result ≡ held_count (player_in state.now) }
{
    cabinet::thularek_held_count(state)
}

// The stage of a slot's voice; 6 where the slot is free, 7 past the last slot.
#[unsafe(no_mangle)]
pub extern "C" fn thularek_panel_stage(state: &Flat, slot: u8) -> u32
    ensures { result ≡ lamp_stage (ask slot (engine_in state.now)) }
{
    cabinet::thularek_panel_stage(state, slot)
}

// The level of a slot's voice, 0 to 1.
#[unsafe(no_mangle)]
pub extern "C" fn thularek_panel_level(state: &Flat, slot: u8) -> f32
    ensures { result ≡ lamp_level (ask slot (engine_in state.now)) }
{
    cabinet::thularek_panel_level(state, slot)
}
