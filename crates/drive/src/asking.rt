// The calls that leave the state as it is: admission, listing and fault of a bank; panel and count of the engine; whether the song is over.
use crate::trace;
use bank::{Fault, Listed};
use cases::{Command, Text};
use player::Player;
use voice::Shown;

// What a listing gives at a place.
fn row(text: &mut Text, letter: u8, l: Listed) {
    match l {
        Listed::Refused => text.called(letter, 1),
        Listed::End => text.listed_end(letter),
        Listed::Row {
            program,
            bank,
            next,
        } => text.listed_row(letter, program, bank, next),
    }
}

// What is wrong with a bank: the number that request M-102 gives its kind, and the byte place; 0 and 0 for nothing.
fn fault(text: &mut Text, f: Result<(), Fault>) {
    let (kind, place) = match f {
        Ok(()) => (0, 0),
        Err(fault) => (20 + fault.kind as u8, fault.place),
    };
    text.called(b'd', kind);
    text.spaced(place as u64);
}

// What the panel answers: a stage behind a space, and nothing where it is refused.
fn shown(text: &mut Text, s: Shown) {
    match s {
        Shown::Refused => text.called(b's', 2),
        _ => {
            text.word(b"s 0 ");
            trace::stage(text, s);
        }
    }
}

// Whether no event of the song is left, and how many voices sound.
fn ending(text: &mut Text, p: &Player) {
    text.counted(b'E', 0, u32::from(player::is_over(*p)));
    text.spaced(u64::from(engine::voice_count(p.engine)));
}

// a, i, d, j, l, s, u, E: the call and its line. The letters are the case's own words, so this is a parser.
pub fn ask(bank: &[u8], text: &mut Text, c: Command, p: &Player) {
    let letter = c.letter;
    match letter {
        b's' => shown(text, engine::panel(p.engine, c.one)),
        b'u' => text.counted(letter, 0, engine::voice_count(p.engine)),
        b'E' => ending(text, p),
        b'a' => text.counted(letter, engine::admit(bank), 0),
        b'i' => text.counted(letter, reader::opens(bank), 0),
        b'd' => fault(text, bank::admission(bank)),
        b'j' => row(text, letter, reader::nth(bank, c.first)),
        _ => row(text, letter, engine::list(bank, c.first)),
    }
    trace::state(text, p.engine);
}
