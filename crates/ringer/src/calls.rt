// The calls that may change the state: those of the player's engine (n, o, c, p, b), a fresh player (F), a song's start and stop (G, H), and the renders (r, V).
// Each is chosen by its letter: the letters are the case's own words, and a call has no other name there.
use cases::{Command, Loan};
use engine::{Engine, Refusal, status_of};
use player::{Answer, Player};

// What a call that is no render answers: the number of 01's table (0: done), a count or a place, and the player after. A number and
// no enum, since a trace's line prints it.
#[derive(Clone, Copy)]
pub struct Called {
    pub number: u8,
    pub count: u32,
    pub player: Player,
}

// n, o, c, p, b: a call of the engine. n is a note-on with what is lent.
fn answer(loan: &Loan, c: Command, e: &mut Engine) -> Result<u32, Refusal> {
    match c.letter {
        b'n' => engine::note_on(
            e,
            loan.bank.lent(),
            loan.ram.lent(),
            loan.rom.lent(),
            c.one,
            c.two,
            c.three,
        ),
        b'o' => engine::note_off(e, c.one, c.two),
        b'c' => engine::control_change(e, c.one, c.two, c.three),
        b'p' => engine::program_change(e, c.one, c.two),
        _ => engine::pitch_bend(e, c.one, c.bend),
    }
}

// The player with the engine that a call of it has left.
fn put_back(p: Player, a: Result<u32, Refusal>, e: Engine) -> Called {
    Called {
        number: status_of(a),
        count: a.unwrap_or(0),
        player: player::with_engine(p, e),
    }
}

// What a call answers that is never refused and counts nothing.
fn made(p: Player) -> Called {
    Called {
        number: 0,
        count: 0,
        player: p,
    }
}

// F: a fresh player, its engine's clock at a value.
fn fresh_at(clock: u32) -> Player {
    let p = player::fresh();
    let mut e = p.engine;
    e.clock = clock;
    player::with_engine(p, e)
}

// G: the lent song starts. Where it is refused, the place of its fault is the count.
fn start(song: &[u8], p: Player) -> Called {
    let b = player::start(p, song);
    Called {
        number: b.number,
        count: b.place,
        player: b.player,
    }
}

// Each call that is no render, by its letter.
pub fn call(loan: &Loan, c: Command, p: Player) -> Called {
    match c.letter {
        b'F' => made(fresh_at(c.first)),
        b'G' => start(loan.song.lent(), p),
        b'H' => made(player::stop(p)),
        _ => {
            let mut e = p.engine;
            let a = answer(loan, c, &mut e);
            put_back(p, a, e)
        }
    }
}

// r: a render of the engine alone, in which no event of the song is applied.
fn render_engine(loan: &Loan, out: &mut [f32], clock: u32, p: Player) -> Answer {
    let mut e = p.engine;
    let a = engine::render(&mut e, loan.ram.lent(), loan.rom.lent(), out, clock);
    Answer {
        number: status_of(a),
        applied: 0,
        refused: 0,
        player: player::with_engine(p, e),
    }
}

// r, V: a render with what is lent, into the output that is lent.
pub fn render(loan: &Loan, out: &mut [f32], c: Command, p: Player) -> Answer {
    if c.letter == b'r' {
        return render_engine(loan, out, c.first, p);
    }
    player::render(
        p,
        loan.song.lent(),
        loan.bank.lent(),
        loan.ram.lent(),
        loan.rom.lent(),
        out,
        c.first,
    )
}
