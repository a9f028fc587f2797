// The event that comes next: when it is due, and how the one behind it is read.
ghost use Rattle.std.specs.Prelude.{◌≡◌};
ghost use Rattle.player.specs.Cues.{idle, with_engine, cued, since, gap_of};

use crate::Player;
use engine::Engine;
use smf::{Cursor, Handed};

// A fresh player: a fresh engine, and no song.
pub fn fresh() -> Player
    ensures { result ≡ idle }
{
    Player {
        engine: engine::fresh(),
        cursor: Cursor {
            at: 0,
            end: 0,
            running: 0,
            division: 0,
            tempo: 0,
            sum: 0,
        },
        event: None,
        began: 0,
    }
}

// The player with another engine, as a host's direct call leaves it.
pub fn with_engine(p: Player, e: Engine) -> Player
    ensures { result ≡ with_engine p e }
{
    Player { engine: e, ..p }
}

// The player behind what was handed out to it.
pub fn cue(p: Player, h: Handed) -> Player
    ensures { result ≡ cued p h }
{
    Player {
        cursor: h.cursor,
        event: h.event,
        ..p
    }
}

// The frames since the song began, modulo 2^32.
#[tactic(auto, unfolding(crate::specs::Cues::since))]
fn since_start(p: Player) -> u32
    ensures { result ≡ since p }
{
    p.engine.clock.wrapping_sub(p.began)
}

// The frames up to the next event, at most so many; all of them where none comes.
#[tactic(auto, unfolding(crate::specs::Cues::gap_of))]
pub fn gap(p: Player, most: u32) -> u32
    ensures { result ≡ gap_of p most }
{
    let Some(v) = p.event else {
        return most;
    };
    v.frame.saturating_sub(since_start(p)).min(most)
}
