// SoundFont files (.sf2): where the bank, the body of the pdta list, and the samples, the body of the smpl chunk, lie in the bytes of a file. Any bytes, any length.

#![tactic(auto)]

ghost use Rattle.std.specs.Prelude.{◌≡◌};
ghost use Rattle.riff.specs.Form.{kind_number};

mod chunks;
mod form;

pub use form::find;

// Where bytes begin in a file, and how many there are.
#[derive(Clone, Copy, Default)]
pub struct Part {
    pub at: usize,
    pub size: usize,
}

// Where the bank and the samples of a file lie.
#[derive(Clone, Copy, Default)]
pub struct Font {
    pub bank: Part,
    pub samples: Part,
}

// What is wrong with a file, by the number that a host is told.
#[derive(Clone, Copy, PartialEq, Eq, Debug)]
pub enum FaultKind {
    // it is no RIFF file, or not one of type sfbk
    NotFont = 40,
    // the form, or a chunk in it, is not whole
    Broken = 41,
    // a list or the chunk of samples is not there
    Missing = 42,
}

impl FaultKind {
    // The number of a kind.
    pub fn number(self) -> u8
        ensures { result ≡ kind_number self }
    {
        self as u8
    }
}

// The first fault of a file, and its place.
#[derive(Clone, Copy, PartialEq, Eq, Debug)]
pub struct Fault {
    pub kind: FaultKind,
    pub place: usize,
}
