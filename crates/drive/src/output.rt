// r, V: render, and its line with the hash of the output.
use crate::trace;
use cases::{Command, Loan, Text};
use player::{Answer, Player};

// The line of a render up to its state: V has the events applied and the refused ones among them before the hash.
fn rendered(text: &mut Text, letter: u8, a: Answer, hash: u64) {
    if letter == b'r' {
        text.rendered(a.number, hash);
    } else {
        text.counted(letter, a.number, a.applied);
        text.spaced(u64::from(a.refused));
        text.hashed(hash);
    }
}

// The render and its line. The output has the length that is asked for, and its numbers hold the binary32 of bits 12345678 (hex) before.
pub fn render(loan: &Loan, text: &mut Text, c: Command, p: Player) -> Player {
    let before = f32::from_bits(305419896);
    let mut room = [before; 8448];
    let out = &mut room[..ringer::lent_numbers(c.second)];
    let a = ringer::render(loan, out, c, p);
    rendered(text, c.letter, a, cases::fnv(out));
    trace::state(text, a.player.engine);
    a.player
}
