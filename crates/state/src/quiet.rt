// The fresh state.
ghost use Rattle.std.specs.Prelude.{◌≡◌};
ghost use Rattle.state.specs.Quiet.{fresh, fresh_channel};

use crate::Engine;
use voice::Channel;

// A fresh channel.
fn fresh_channel() -> Channel
    ensures { result ≡ fresh_channel }
{
    Channel {
        program: 0,
        stored: 0,
        bank: 0,
        bend: 8192,
        volume: 100,
        expression: 127,
        pedal: 0,
    }
}

// The fresh state: no slot sounds, and the clock is at 0.
pub fn fresh() -> Engine
    ensures { result ≡ fresh }
{
    let v = voice::no_voice();
    let c = fresh_channel();
    Engine {
        voices: [v; 32],
        channels: [c; 16],
        sounding: 0,
        order: [
            0, 1, 2, 3, 4, 5, 6, 7, 8, 9, 10, 11, 12, 13, 14, 15, 16, 17, 18, 19, 20, 21, 22, 23,
            24, 25, 26, 27, 28, 29, 30, 31,
        ],
        clock: 0,
    }
}
