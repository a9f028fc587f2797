// h: a key is struck on the lent bank by itself: how many layers it has, and a line for each voice that they start.
use crate::voices;
use cases::{Command, Text};
use layers::Struck;

// What a key of an admitted bank starts, by program, bank, key and velocity. Its chunks end within 65,536 bytes.
fn struck(bank: &[u8], c: Command) -> Option<Struck> {
    if 65536 < records::chunk_at(bank, 9) {
        return None;
    }
    let m = records::parts_of(bank);
    let h = layers::preset_for(bank, m, u16::from(c.two), c.one)?;
    let h = u32::try_from(h).unwrap_or(0);
    Some(layers::voices_for(bank, m, h, 0, c.three, c.four))
}

// The call and its lines; the player has no part in it. There are none for a bank that is not admitted, or has no such preset.
pub fn hit(bank: &[u8], text: &mut Text, c: Command) {
    let s = if bank::admitted(bank) {
        struck(bank, c)
    } else {
        None
    };
    match s {
        Some(s) => voices::found(text, s),
        None => text.word(b"h none\n"),
    }
}
