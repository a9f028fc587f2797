// W: a file of numbers.
use cases::{Bad, Held, Input, Text};

// The file is written into the output that is lent, and the line has the hash of all of that.
fn line(numbers: &[f32], out: &mut [u8], text: &mut Text) {
    let number = match wave::write(numbers, out) {
        Ok(()) => 0,
        Err(refusal) => refusal.number(),
    };
    text.called(b'W', number);
    text.hashed(cases::fnv(out));
    text.put(b'\n');
}

// An output of so many bytes, which hold a5 (hex) before. More than there is room for are bad.
fn into_output(numbers: &[f32], text: &mut Text, length: u32) -> Result<(), Bad> {
    let mut out = [165u8; 66000];
    let n = length as usize;
    if out.len() < n {
        return Err(Bad);
    }
    line(numbers, &mut out[..n], text);
    Ok(())
}

// The command behind its letter.
pub fn write(input: &mut Input, text: &mut Text) -> Result<(), Bad> {
    let mut room = [0f32; 8448];
    let mut numbers = Held::nothing(&mut room);
    let count: u32 = input.next()?;
    numbers.read(input, count)?;
    let length: u32 = input.next()?;
    into_output(numbers.lent(), text, length)
}
