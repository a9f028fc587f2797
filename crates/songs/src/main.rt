// Reads MIDI files from standard input, each a length and its bytes, and writes to standard output what is found in each.

#![tactic(auto)]

mod lines;

use cases::{Bad, Held, Input, Text};

// The files one after the other. Where not a byte is left, not even of a length, they have ended as they should.
// A proved loop has to end, and nothing says that the input does: this one ends at a number that no run comes to.
fn play(input: &mut Input, text: &mut Text) -> Result<(), Bad> {
    let mut bytes = [0u8; 66000];
    let mut file = Held::nothing(&mut bytes);
    for _ in 0..u64::MAX {
        if input.is_over() {
            break;
        }
        let length: u32 = input.next()?;
        file.read(input, length)?;
        lines::song(file.lent(), text);
    }
    Ok(())
}

fn main() {
    let mut room = io::large_buffer();
    let mut input = Input::start(&mut room);
    let mut text = Text::begin();
    let played = play(&mut input, &mut text);
    text.finish(played);
}
