// r, V: a render, counted and, the second time, poured.
use crate::STDOUT;
use crate::complaints::Complaint;
use cases::{Command, Loan};
use player::Player;

// What of a case is recorded.
#[derive(Clone, Copy)]
pub struct Tape {
    // the frames of all done renders
    pub frames: u64,
    // the numbers of the renders are written
    pub pours: bool,
}

// So many frames of an output as bytes to standard output. The engine's numbers are never refused.
fn pour(out: &[f32], frames: u32) -> Result<(), Complaint> {
    let mut bytes = [0u8; 16896];
    let n = frames as usize;
    let refused = wave::pour(cases::first(out, 2 * n), &mut bytes).is_err();
    if refused || !io::write_all(STDOUT, cases::first(&bytes, 4 * n)) {
        return Err(Complaint::Lost);
    }
    Ok(())
}

// A done render of so many frames.
fn heard(tape: &mut Tape, out: &[f32], frames: u32) -> Result<(), Complaint> {
    tape.frames = tape.frames.saturating_add(u64::from(frames));
    if tape.pours {
        pour(out, frames)
    } else {
        Ok(())
    }
}

// A render into an output of the length that is asked for. A done one has as many frames as the clock went on.
pub fn render(loan: &Loan, tape: &mut Tape, c: Command, p: Player) -> Result<Player, Complaint> {
    let mut room = [0f32; 8448];
    let out = &mut room[..ringer::lent_numbers(c.second)];
    let a = ringer::render(loan, out, c, p);
    if a.number == 0 {
        heard(
            tape,
            out,
            a.player.engine.clock.wrapping_sub(p.engine.clock),
        )?;
    }
    Ok(a.player)
}
