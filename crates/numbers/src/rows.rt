// One line: a name, an argument, what it gives.
use cases::Text;

// A line of a number that is not below 0.
pub fn line(text: &mut Text, name: &[u8], n: i32, value: u32) {
    text.word(name);
    text.signed(n);
    text.word(b" = ");
    text.decimal(u64::from(value));
    text.put(b'\n');
}

// A line of a number that may be below 0.
pub fn signed_line(text: &mut Text, name: &[u8], n: u16, value: i32) {
    text.word(name);
    text.decimal(u64::from(n));
    text.word(b" = ");
    text.signed(value);
    text.put(b'\n');
}
