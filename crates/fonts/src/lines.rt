// The line of a file: where its bank and its samples lie, or its first fault.
use cases::Text;
use riff::Part;

// A part behind a space: where it begins, and its size.
fn part(text: &mut Text, p: Part) {
    text.spaced(p.at as u64);
    text.spaced(p.size as u64);
}

// The line of a file.
pub fn font(file: &[u8], text: &mut Text) {
    match riff::find(file) {
        Ok(font) => {
            text.decimal(0);
            part(text, font.bank);
            part(text, font.samples);
        }
        Err(fault) => {
            text.decimal(u64::from(fault.kind.number()));
            text.spaced(fault.place as u64);
        }
    }
    text.put(b'\n');
}
