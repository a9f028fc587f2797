// Program change.
ghost use Rattle.std.specs.Prelude.{◌≡◌};
ghost use Rattle.state.specs.Answers.{told_call};
ghost use Rattle.events.specs.Programs.{program_change};

use state::{Engine, Refusal, channel_of, past_one, with_channel};

// Program change: takes the stored bank. It counts no voices.
pub fn program_change(e: &mut Engine, channel: u8, program: u8) -> Result<u32, Refusal>
    ensures { told_call result e.new ≡ program_change channel program e.old }
{
    if past_one(channel, program) {
        return Err(Refusal::OutOfRange);
    }
    let mut c = channel_of(*e, channel);
    c.program = program;
    c.bank = c.stored;
    *e = with_channel(*e, channel, c);
    Ok(0)
}
