// A window is a part of one of the two lent sample memories (01, "Bank admission").
ghost use Rattle.std.specs.Prelude.{◌≡◌, cond};
ghost use Rattle.records.specs.Memory.{part_of};

// The part of a memory from start to end; none of it where that does not lie within.
fn part_of(m: &[i16], start: usize, end: usize) -> &[i16]
    ensures { result.now ≡ part_of m.now start end }
{
    if end < start {
        return &m[0..0];
    }
    if m.len() < end {
        return &m[0..0];
    }
    &m[start..end]
}

// The window from start to end of the ROM or of the RAM, borrowed.
pub fn window_of<'a>(
    ram: &'a [i16],
    rom: &'a [i16],
    in_rom: bool,
    start: u32,
    end: u32,
) -> &'a [i16]
    ensures { result.now ≡ part_of (cond in_rom rom.now ram.now) start end }
{
    if in_rom {
        part_of(rom, start as usize, end as usize)
    } else {
        part_of(ram, start as usize, end as usize)
    }
}
