// The line of a file: its refusal, or the size of its merged song.
use cases::{Bad, Held, Input, Text};

// The file is merged into the output that is lent, and the line has the hash of all of that.
fn line(file: &[u8], out: &mut [u8], text: &mut Text) {
    let m = merge::merge(file, out);
    text.decimal(u64::from(m.number));
    text.spaced(m.place as u64);
    text.spaced(m.size as u64);
    text.hashed(cases::fnv(out));
    text.put(b'\n');
}

// An output of so many bytes, which hold a5 (hex) before. More than there is room for are bad.
fn into_output(file: &[u8], text: &mut Text, length: u32) -> Result<(), Bad> {
    let mut out = [165u8; 66000];
    let n = length as usize;
    if out.len() < n {
        return Err(Bad);
    }
    line(file, &mut out[..n], text);
    Ok(())
}

// The next file, behind its length and that of its output.
pub fn song(file: &mut Held<u8>, input: &mut Input, text: &mut Text) -> Result<(), Bad> {
    let size: u32 = input.next()?;
    let length: u32 = input.next()?;
    file.read(input, size)?;
    into_output(file.lent(), text, length)
}
