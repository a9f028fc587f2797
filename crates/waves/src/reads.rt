// R: the numbers of a file.
use cases::{Bad, Held, Input, Text};

// The file is read into the output that is lent, and the line has the hash of all of that.
fn line(file: &[u8], out: &mut [i16], text: &mut Text) {
    let (number, frames) = match wave::read(file, out) {
        Ok(frames) => (0, frames),
        Err(refusal) => (refusal.number(), 0),
    };
    text.called(b'R', number);
    text.spaced(u64::from(frames));
    text.hashed(cases::fnv(out));
    text.put(b'\n');
}

// An output of so many 16-bit numbers, which hold 1234 (hex) before. More than there is room for are bad.
fn into_output(file: &[u8], text: &mut Text, length: u32) -> Result<(), Bad> {
    let mut out = [4660i16; 8448];
    let n = length as usize;
    if out.len() < n {
        return Err(Bad);
    }
    line(file, &mut out[..n], text);
    Ok(())
}

// The command behind its letter.
pub fn read(input: &mut Input, text: &mut Text) -> Result<(), Bad> {
    let mut bytes = [0u8; 66000];
    let mut file = Held::nothing(&mut bytes);
    let size: u32 = input.next()?;
    file.read(input, size)?;
    let length: u32 = input.next()?;
    into_output(file.lent(), text, length)
}
