// The calls that may change the state and are no renders, with their lines: n, o, c, p, b, G, H; and F, which has none.
use crate::trace;
use cases::{Command, Loan, Text};
use player::Player;

// The call and its line: a count or a place, and the state behind it.
pub fn call(loan: &Loan, text: &mut Text, c: Command, p: Player) -> Player {
    let a = ringer::call(loan, c, p);
    if c.letter != b'F' {
        text.counted(c.letter, a.number, a.count);
        trace::state(text, a.player.engine);
    }
    a.player
}
