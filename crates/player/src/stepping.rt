// A song event by event: the event that comes next, its frame, and a step over it.
ghost use Rattle.std.specs.Prelude.{◌≡◌};
ghost use Rattle.player.specs.Stepping.{step_taken, next_event, next_frame};

use crate::acting::heed;
use crate::cues::{cue, with_engine};
use crate::{Player, Stepped};

// The event that comes next acts now, due or not, and the one behind it is read. A refused one changes nothing of the engine, and the song goes on behind it.
#[tactic(auto, unfolding(crate::specs::Stepping::step_taken, crate::specs::Playing::applying))]
pub fn step<'a>(p: Player, file: &[u8], bank: &[u8], ram: &'a [i16], rom: &'a [i16]) -> Stepped
    ensures { result ≡ step_taken file.now bank.now ram.now rom.now p }
{
    let Some(v) = p.event else {
        return Stepped {
            number: 0,
            applied: 0,
            player: p,
        };
    };
    let mut e = p.engine;
    let a = heed(&mut e, bank, ram, rom, v);
    Stepped {
        number: engine::status_of(a),
        applied: 1,
        player: cue(with_engine(p, e), smf::next(file, p.cursor)),
    }
}

// The three bytes of the event that comes next as one number, its status lowest; 0 where none is left.
#[tactic(auto, unfolding(crate::specs::Stepping::next_event))]
pub fn next_event(p: Player) -> u32
    ensures { result ≡ next_event p }
{
    let Some(v) = p.event else {
        return 0;
    };
    u32::from(v.status) + 256 * u32::from(v.first) + 65536 * u32::from(v.second)
}

// The frame that it comes before, counted from the song's start; 0 where none is left.
#[tactic(auto, unfolding(crate::specs::Stepping::next_frame))]
pub fn next_frame(p: Player) -> u32
    ensures { result ≡ next_frame p }
{
    let Some(v) = p.event else {
        return 0;
    };
    v.frame
}
