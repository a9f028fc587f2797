// Pitch bend.
ghost use Rattle.std.specs.Prelude.{◌≡◌};
ghost use Rattle.state.specs.Answers.{told_call};
ghost use Rattle.events.specs.Bends.{pitch_bend};

use state::{Engine, Refusal, channel_of, past_bend, with_channel};

// Pitch bend. It counts no voices.
pub fn pitch_bend(e: &mut Engine, channel: u8, bend: u16) -> Result<u32, Refusal>
    ensures { told_call result e.new ≡ pitch_bend channel bend e.old }
{
    if past_bend(channel, bend) {
        return Err(Refusal::OutOfRange);
    }
    let mut c = channel_of(*e, channel);
    c.bend = bend;
    *e = with_channel(*e, channel, c);
    Ok(0)
}
