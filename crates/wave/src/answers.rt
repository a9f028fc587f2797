// What the calls answer: why one is refused, and what is said of sums that are poured.
ghost use Rattle.std.specs.Prelude.{◌≡◌};
ghost use Rattle.wave.specs.Answers.{refusal_number};

// Why a call is refused, by 02's number.
#[derive(Clone, Copy, PartialEq, Eq, Debug)]
pub enum Refusal {
    // an odd count of numbers, or one that is no output number
    NotOutput = 13,
    // more frames than a heading can say
    TooLong = 14,
    // an output that is too short
    NoRoom = 15,
    // a file that the writer does not make
    NotRecording = 28,
}

impl Refusal {
    // The number of a refusal.
    pub fn number(self) -> u8
        ensures { result ≡ refusal_number self }
    {
        self as u8
    }
}

// Sums that are poured: the frames that were held, or 4,294,967,295 where there are more; and the largest size of a sum before it was lowered.
#[derive(Clone, Copy)]
pub struct Poured {
    pub held: u32,
    pub loudest: u32,
}
