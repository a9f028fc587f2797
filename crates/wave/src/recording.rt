// The file of a run of output numbers.
ghost use Rattle.std.specs.Prelude.{◌≡◌, length};
ghost use Rattle.wave.specs.Answers.{told_number};
ghost use Rattle.wave.specs.Recording.{write_number, recorded};

use crate::{Refusal, headings, pours};

// The numbers as a file at the beginning of the output.
pub fn write(numbers: &[f32], out: &mut [u8]) -> Result<(), Refusal>
    ensures value { told_number result ≡ write_number numbers.now (length out.old) }
    ensures output { out.new ≡ recorded numbers.now out.old }
{
    if pours::is_broken(numbers) {
        return Err(Refusal::NotOutput);
    }
    let frames = numbers.len() / 2;
    if 1073741814 < frames {
        return Err(Refusal::TooLong);
    }
    if out.len() < 44 + 4 * frames {
        return Err(Refusal::NoRoom);
    }
    let head = headings::bytes(frames as u64);
    headings::put(&head, out);
    pours::fill(numbers, out, 44);
    Ok(())
}
