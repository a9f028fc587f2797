// The panel: what it is told of a slot, and how many voices sound.
ghost use Rattle.std.specs.Prelude.{◌≡◌};
ghost use Rattle.state.specs.Board.{ask, voice_count};

use crate::Engine;
use crate::slots::slot_of;
use curves::GainTable;
use voice::{Shown, show};

// What the panel is told of a slot; past 31 it is refused.
pub fn panel(e: Engine, slot: u8) -> Shown
    ensures { result ≡ ask slot e }
{
    if 31 < slot {
        return Shown::Refused;
    }
    let g = GainTable::new();
    show(slot_of(e, slot as usize), &g)
}

// How many voices sound: the ones of the word.
pub fn voice_count(e: Engine) -> u32
    ensures { result ≡ voice_count e }
{
    arith::count(e.sounding)
}
