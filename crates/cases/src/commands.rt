// The commands of a case: a letter, and the bytes behind it as the numbers that they are.
ghost use Rattle.std.specs.Prelude.{◌≤◌};

use crate::input::{Bad, Input};

// A command. What its letter does not have is 0, and the bytes of a bank, a song, a memory or a name are still to be read.
#[derive(Clone, Copy)]
pub struct Command {
    pub letter: u8,
    // the bytes in order
    pub one: u8,
    pub two: u8,
    pub three: u8,
    pub four: u8,
    // the second and third byte as one number
    pub bend: u16,
    // four bytes and the next four, each as one number
    pub first: u32,
    pub second: u32,
}

// How many bytes stand behind a letter before those of a bank, a song, a memory or a name. The letters are the case's own words, so this is a parser.
fn bytes_behind(letter: u8) -> usize
    ensures { result ≤ 8 }
{
    match letter {
        b's' | b't' => 1,
        b'o' | b'p' => 2,
        b'n' | b'c' | b'b' => 3,
        b'B' | b'L' | b'M' | b'O' | b'm' | b'x' | b'F' | b'l' | b'j' | b'h' => 4,
        b'r' | b'V' => 8,
        _ => 0,
    }
}

// The command that a letter and eight bytes make.
fn of_bytes(letter: u8, bytes: &[u8; 8]) -> Command {
    Command {
        letter,
        one: bytes[0],
        two: bytes[1],
        three: bytes[2],
        four: bytes[3],
        bend: arith::u16_at(bytes, 1),
        first: arith::u32_at(bytes, 0),
        second: arith::u32_at(bytes, 4),
    }
}

impl Input<'_> {
    // The next command, where a letter is left. One that is cut off is bad.
    pub fn command(&mut self) -> Result<Option<Command>, Bad> {
        let Some(letter) = self.byte() else {
            return Ok(None);
        };
        let mut bytes = [0u8; 8];
        self.fill(&mut bytes[..bytes_behind(letter)])?;
        Ok(Some(of_bytes(letter, &bytes)))
    }
}
