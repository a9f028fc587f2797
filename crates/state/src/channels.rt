// A channel of a state.
ghost use Rattle.std.specs.Prelude.{◌≡◌, ◌<◌};
ghost use Rattle.state.specs.Channels.{channel_at, with_channel};

use crate::Engine;
use voice::Channel;

// Channel c; one of zeros past the last.
pub fn channel_of(e: Engine, channel: u8) -> Channel
    ensures { result ≡ channel_at e channel }
{
    let i = channel as usize;
    if i < 16 {
        e.channels[i]
    } else {
        Channel {
            program: 0,
            stored: 0,
            bank: 0,
            bend: 0,
            volume: 0,
            expression: 0,
            pedal: 0,
        }
    }
}

// The state with another channel c.
pub fn with_channel(e: Engine, channel: u8, c: Channel) -> Engine
    requires { channel < 16 }
    ensures { result ≡ with_channel e channel c }
{
    let mut x = e;
    let i = channel as usize;
    x.channels[i] = c;
    x
}
