// What C's memory holds: the last call's number, count, refused events and place, and the player's twin.
ghost use Rattle.std.specs.Prelude.{◌≡◌};
ghost use Rattle.state.specs.Answers.{told_call};
ghost use Rattle.cabinet.specs.Keeping.{player_in, kept, kept_answer, kept_start, kept_play};

use crate::{Flat, FlatPlayer};
use engine::{Engine, Refusal, status_of};
use player::{Answer, Begun, Player};

// The player in C's memory.
pub fn player_in(s: Flat) -> Player
    ensures { result ≡ player_in s }
{
    Player::from(s.player)
}

// C's memory, from the four numbers of an answer and a player.
pub fn keep(number: u8, count: u32, refused: u32, place: u32, p: Player) -> Flat
    ensures { result ≡ kept number count refused place p }
{
    Flat {
        number: u32::from(number),
        count,
        refused,
        place,
        player: FlatPlayer::from(p),
    }
}

// After a direct call.
pub fn keep_answer(a: Result<u32, Refusal>, e: Engine, s: Flat) -> Flat
    ensures { result ≡ kept_answer (told_call a e) s }
{
    let p = player::with_engine(player_in(s), e);
    keep(status_of(a), a.unwrap_or(0), 0, 0, p)
}

// After a start.
pub fn keep_start(b: Begun) -> Flat
    ensures { result ≡ kept_start b }
{
    keep(b.number, 0, 0, b.place, b.player)
}

// After a render of a song.
pub fn keep_play(a: Answer) -> Flat
    ensures { result ≡ kept_play a }
{
    keep(a.number, a.applied, a.refused, 0, a.player)
}
