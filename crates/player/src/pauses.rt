// Between two songs: all channels are let go, and a song that starts finds them as in a fresh engine.
ghost use Rattle.std.specs.Prelude.{◌≡◌};
ghost use Rattle.player.specs.Pauses.{hushed, hushed_to, freshened, freshened_to, started, stopped};

use crate::cues::cue;
use crate::{Begun, Player};
use engine::Engine;

// A channel let go: its pedal lifted, and then all its keys.
fn hush(e: Engine, channel: u8) -> Engine
    ensures { result ≡ hushed channel e }
{
    let mut x = e;
    let _ = engine::control_change(&mut x, channel, 64, 0);
    let _ = engine::control_change(&mut x, channel, 123, 0);
    x
}

// All channels let go, in order.
#[tactic(auto, unfolding(crate::specs::Pauses::hushed_to))]
fn hush_all(e: Engine) -> Engine
    ensures { result ≡ hushed_to 16 e }
{
    let mut x = e;
    for channel in 0..16u8 {
        x = hush(x, channel);
    }
    x
}

// Program, stored and taken bank, bend, 7 and 11 of a channel as in a fresh engine.
fn freshen(e: Engine, channel: u8) -> Engine
    ensures { result ≡ freshened channel e }
{
    let mut x = e;
    let _ = engine::control_change(&mut x, channel, 0, 0);
    let _ = engine::program_change(&mut x, channel, 0);
    let _ = engine::pitch_bend(&mut x, channel, 8192);
    let _ = engine::control_change(&mut x, channel, 7, 100);
    let _ = engine::control_change(&mut x, channel, 11, 127);
    x
}

// .. of all channels. (A function that takes the step as a closure would say its equation worse: one line each is plainer.)
#[tactic(auto, unfolding(crate::specs::Pauses::freshened_to))]
fn freshen_all(e: Engine) -> Engine
    ensures { result ≡ freshened_to 16 e }
{
    let mut x = e;
    for channel in 0..16u8 {
        x = freshen(x, channel);
    }
    x
}

// The song stops: all channels are let go, and no event is left.
#[tactic(auto, unfolding(crate::specs::Pauses::stopped))]
pub fn stop(p: Player) -> Player
    ensures { result ≡ stopped p }
{
    Player {
        engine: hush_all(p.engine),
        event: None,
        ..p
    }
}

// A song starts at the clock's value, once the one that was playing is stopped. A refused file changes nothing.
pub fn start(p: Player, file: &[u8]) -> Begun
    ensures { result ≡ started file.now p }
{
    let o = smf::open(file);
    if o.number != 0 {
        return Begun {
            number: o.number,
            place: o.place,
            player: p,
        };
    }
    let x = Player {
        engine: freshen_all(hush_all(p.engine)),
        began: p.engine.clock,
        ..p
    };
    Begun {
        number: 0,
        place: 0,
        player: cue(x, smf::next(file, o.cursor)),
    }
}
