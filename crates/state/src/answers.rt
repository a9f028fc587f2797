// The numbers of the refusals, and the test of ranges.
ghost use Rattle.std.specs.Prelude.{◌≡◌};
ghost use Rattle.state.specs.Answers.{number, status_of, past_one, past_two, past_bend};

use crate::Refusal;

impl Refusal {
    // Its number.
    pub fn number(self) -> u8
        ensures { result ≡ number self }
    {
        self as u8
    }
}

// The number of a call's answer: 0 where it is done, else that of its refusal.
pub fn status_of(told: Result<u32, Refusal>) -> u8
    ensures { result ≡ status_of told }
{
    match told {
        Ok(_) => 0,
        Err(refusal) => refusal.number(),
    }
}

// The channel is past 15, or a past 127.
pub fn past_one(channel: u8, a: u8) -> bool
    ensures { result ≡ past_one channel a }
{
    15 < channel || 127 < a
}

// The channel is past 15, or a or b past 127.
pub fn past_two(channel: u8, a: u8, b: u8) -> bool
    ensures { result ≡ past_two channel a b }
{
    past_one(channel, a) || 127 < b
}

// The channel is past 15, or the bend past 16,383.
pub fn past_bend(channel: u8, bend: u16) -> bool
    ensures { result ≡ past_bend channel bend }
{
    15 < channel || 16383 < bend
}
