// What a command is for, by its letter. A case is a text of letters, so each is known by its letter until it is played.
ghost use Rattle.std.specs.Prelude.{◌≤◌};

use cases::{Bad, Command};

// What a command is for.
#[derive(Clone, Copy, PartialEq, Eq)]
pub enum Kind {
    // n, o, c, p, b, F, G, H, r, V: the player does something
    Plays,
    // B, L, M, O, m, x: something is lent
    Lends,
    // a, i, d, j, l, s, u, E: something is asked
    Asks,
    // h: a key is struck on the bank by itself
    Strikes,
    // t: a case's name
    Names,
}

// How many numbers an output may have.
const ROOM: u32 = 8448;

// How many numbers are lent, at most all that there are.
pub fn lent_numbers(length: u32) -> usize
    ensures { result ≤ 8448 }
{
    length.min(ROOM) as usize
}

// Whether key and velocity may be struck.
fn playable(key: u8, velocity: u8) -> bool {
    key <= 127 && 0 < velocity && velocity <= 127
}

// What a command is for. Bad is a letter that nobody knows, an output that there is no room for, and a key or a velocity that cannot be struck.
pub fn kind_of(c: Command) -> Result<Kind, Bad> {
    match c.letter {
        b'n' | b'o' | b'c' | b'p' | b'b' | b'F' | b'G' | b'H' => Ok(Kind::Plays),
        b'r' | b'V' if c.second <= ROOM => Ok(Kind::Plays),
        b'B' | b'L' | b'M' | b'O' | b'm' | b'x' => Ok(Kind::Lends),
        b'a' | b'i' | b'd' | b'j' | b'l' | b's' | b'u' | b'E' => Ok(Kind::Asks),
        b'h' if playable(c.three, c.four) => Ok(Kind::Strikes),
        b't' => Ok(Kind::Names),
        _ => Err(Bad),
    }
}
