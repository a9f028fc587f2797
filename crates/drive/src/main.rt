// Plays a case file from standard input and writes its trace to standard output.

#![tactic(auto)]

mod asking;
mod calls;
mod hammer;
mod output;
mod trace;
mod voices;

use cases::{Bad, Command, Input, Loan, Text};
use player::Player;
use ringer::Kind;

// A command for the player. The letters are the case's own words, so this is a parser.
fn play(loan: &Loan, text: &mut Text, c: Command, p: &mut Player) {
    *p = match c.letter {
        b'r' | b'V' => output::render(loan, text, c, *p),
        _ => calls::call(loan, text, c, *p),
    };
}

// A command. Things that are lent, asked and named leave the player as it is. It is lent here, and copied in `play` alone: a player that this
// function holds by value, or answers, is cleared and copied for each letter, which cost record ten times the time.
fn turn(
    loan: &mut Loan,
    input: &mut Input,
    text: &mut Text,
    c: Command,
    p: &mut Player,
) -> Result<(), Bad> {
    match ringer::kind_of(c)? {
        Kind::Plays => play(loan, text, c, p),
        Kind::Lends => loan.lend(input, c)?,
        Kind::Asks => asking::ask(loan.bank.lent(), text, c, p),
        Kind::Strikes => hammer::hit(loan.bank.lent(), text, c),
        Kind::Names => cases::name(input, text, c.one)?,
    }
    Ok(())
}

// The commands one after the other, from a fresh player on, with nothing lent. Where no letter is left, they have ended as they should.
// A proved loop has to end, and nothing says that the input does: this one ends at a number that no run comes to.
fn play_all(input: &mut Input, text: &mut Text) -> Result<(), Bad> {
    let mut bank = [0u8; 66000];
    let mut song = [0u8; 66000];
    let mut ram = [0i16; 65536];
    let mut rom = [0i16; 65536];
    let mut loan = Loan::nothing(&mut bank, &mut song, &mut ram, &mut rom);
    let mut p = player::fresh();
    for _ in 0..u64::MAX {
        let Some(c) = input.command()? else {
            break;
        };
        turn(&mut loan, input, text, c, &mut p)?;
    }
    Ok(())
}

fn main() {
    let mut room = io::large_buffer();
    let mut input = Input::start(&mut room);
    let mut text = Text::begin();
    let played = play_all(&mut input, &mut text);
    text.finish(played);
}
