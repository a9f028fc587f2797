// The lines of a file: its refusal, or its channel events and how many there are.
use cases::Text;
use smf::{Cursor, Event};

// A byte behind a space, in two hex digits.
fn byte(text: &mut Text, b: u8) {
    text.put(b' ');
    text.hex(u64::from(b), 2);
}

// A channel event: its frame and its bytes.
fn event_line(text: &mut Text, e: Event) {
    text.decimal(u64::from(e.frame));
    byte(text, e.status);
    byte(text, e.first);
    if smf::size(e) == 3 {
        byte(text, e.second);
    }
    text.put(b'\n');
}

// A file's last line: the number, and the place of its fault or how many events it has.
fn last_line(text: &mut Text, number: u8, n: u64) {
    text.decimal(u64::from(number));
    text.spaced(n);
    text.put(b'\n');
}

// All events of a good file, and how many there are. There are fewer than it has bytes, so that the reader ends before the loop does.
fn events(file: &[u8], text: &mut Text, from: Cursor) -> usize {
    let mut c = from;
    for count in 0..file.len() {
        let h = smf::next(file, c);
        let Some(event) = h.event else {
            return count;
        };
        event_line(text, event);
        c = h.cursor;
    }
    file.len()
}

// The lines of a file.
pub fn song(file: &[u8], text: &mut Text) {
    let o = smf::open(file);
    if o.number != 0 {
        last_line(text, o.number, o.place as u64);
    } else {
        let count = events(file, text, o.cursor);
        last_line(text, 0, count as u64);
    }
}
