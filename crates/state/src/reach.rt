// Whether a voice's window ends past its lent memory.
ghost use Rattle.std.specs.Prelude.{◌≡◌};
ghost use Rattle.state.specs.Reach.{ends_past};

use voice::Voice;

// A voice's window ends past its memory.
pub fn ends_past<'a>(ram: &'a [i16], rom: &'a [i16], v: Voice) -> bool
    ensures { result ≡ ends_past ram.now rom.now v }
{
    let end = v.end as usize;
    if v.rom {
        return rom.len() < end;
    }
    ram.len() < end
}
