// Writes and reads WAVE files as standard input says (02, M-107), and writes to standard output what comes of it.

#![tactic(auto)]

mod reads;
mod writes;

use cases::{Bad, Input, Text};

// A command behind its letter. The letters are those of the input's form.
fn turn(input: &mut Input, text: &mut Text, letter: u8) -> Result<(), Bad> {
    match letter {
        b'W' => writes::write(input, text),
        b'R' => reads::read(input, text),
        _ => Err(Bad),
    }
}

// The commands one after the other. Where no letter is left, they have ended as they should.
// A proved loop has to end, and nothing says that the input does: this one ends at a number that no run comes to.
fn play(input: &mut Input, text: &mut Text) -> Result<(), Bad> {
    for _ in 0..u64::MAX {
        let Some(letter) = input.byte() else {
            break;
        };
        turn(input, text, letter)?;
    }
    Ok(())
}

fn main() {
    let mut room = io::large_buffer();
    let mut input = Input::start(&mut room);
    let mut text = Text::begin();
    let played = play(&mut input, &mut text);
    text.finish(played);
}
