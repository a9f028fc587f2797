// Plays a case file from standard input, and writes what its renders sound like to standard output, as one WAVE file (02, M-107).
// The heading says how long the file is, and standard input may be a pipe: the case is read whole, and played twice, first to count its frames and to see whether it is bad.
// A bad case gives no file and a line on standard error. It gives no exit status: `main` answers nothing.

#![tactic(auto)]

mod complaints;
mod renders;

use cases::{Bad, Command, Input, Loan};
use complaints::Complaint;
use player::Player;
use renders::Tape;
use ringer::Kind;

// The descriptors of standard input and output.
const STDIN: i32 = 0;

const STDOUT: i32 = 1;

// A command for the player. The letters are the case's own words, so this is a parser.
fn play(loan: &Loan, tape: &mut Tape, c: Command, p: &mut Player) -> Result<(), Complaint> {
    *p = match c.letter {
        b'r' | b'V' => renders::render(loan, tape, c, *p)?,
        _ => ringer::call(loan, c, *p).player,
    };
    Ok(())
}

// t: a name is read over.
fn read_over(input: &mut Input, n: u8) -> Result<(), Bad> {
    let mut bytes = [0u8; 256];
    input.fill(&mut bytes[..usize::from(n)])
}

// A command that begins at this byte. What is asked and struck is not recorded. The player is lent here, and copied in `play` alone: one that this
// function holds by value, or answers, is cleared and copied for each letter, which cost ten times the time.
fn turn(
    loan: &mut Loan,
    input: &mut Input,
    tape: &mut Tape,
    begun: usize,
    c: Command,
    p: &mut Player,
) -> Result<(), Complaint> {
    let bad = Complaint::Bad(begun);
    match ringer::kind_of(c).or(Err(bad))? {
        Kind::Plays => play(loan, tape, c, p)?,
        Kind::Lends => loan.lend(input, c).or(Err(bad))?,
        Kind::Asks | Kind::Strikes => {}
        Kind::Names => read_over(input, c.one).or(Err(bad))?,
    }
    Ok(())
}

// All of a case of n bytes, from a fresh player on, with nothing lent. A proved loop has to end: this one ends at a number that no case comes to.
// The arrays are the caller's: the check of a part of an array that is made in the function itself counts through it, and runs out of stack at the large ones.
fn run(
    bank: &mut [u8; 66000],
    song: &mut [u8; 66000],
    ram: &mut [i16; 524288],
    rom: &mut [i16; 524288],
    room: &mut [u8; 4194304],
    n: usize,
    tape: &mut Tape,
) -> Result<(), Complaint> {
    let mut loan = Loan::nothing(bank, song, ram, rom);
    let mut input = Input::whole(room, n);
    let mut p = player::fresh();
    for _ in 0..u64::MAX {
        let begun = input.place();
        let Some(c) = input.command().or(Err(Complaint::Bad(begun)))? else {
            break;
        };
        turn(&mut loan, &mut input, tape, begun, c, &mut p)?;
    }
    Ok(())
}

// The heading for so many frames.
fn begin_file(frames: u64) -> Result<(), Complaint> {
    let mut heading = [0u8; 44];
    if wave::heading(frames, &mut heading).is_ok() && io::write_all(STDOUT, &heading) {
        Ok(())
    } else {
        Err(Complaint::Lost)
    }
}

// A case of n bytes: counted, and written where it can be.
fn record(room: &mut [u8; 4194304], n: usize) -> Result<(), Complaint> {
    let mut counted = Tape {
        frames: 0,
        pours: false,
    };
    let mut bank = [0u8; 66000];
    let mut song = [0u8; 66000];
    let mut ram = [0i16; 524288];
    let mut rom = [0i16; 524288];
    run(
        &mut bank,
        &mut song,
        &mut ram,
        &mut rom,
        room,
        n,
        &mut counted,
    )?;
    if 1073741814 < counted.frames {
        return Err(Complaint::Endless);
    }
    begin_file(counted.frames)?;
    let mut poured = Tape {
        frames: 0,
        pours: true,
    };
    run(
        &mut bank,
        &mut song,
        &mut ram,
        &mut rom,
        room,
        n,
        &mut poured,
    )
}

// The case is read whole into the room. One that fills it to the last byte may go on behind it, and is refused.
fn listen(room: &mut [u8; 4194304]) -> Result<(), Complaint> {
    let n = io::read_full(STDIN, room);
    if n < 4194304 {
        record(room, n)
    } else {
        Err(Complaint::Long)
    }
}

// Room and memories stand on the stack: 4 MiB and twice 1 MiB, of the 8 MiB that a process has by default.
fn main() {
    let mut room = [0u8; 4194304];
    if let Err(complaint) = listen(&mut room) {
        complaint.say();
    }
}
