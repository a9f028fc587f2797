// What is said on standard error where there is no recording.
// The descriptor of standard error.
const STDERR: i32 = 2;

// Why there is no recording, or not all of it.
#[derive(Clone, Copy)]
pub enum Complaint {
    // the command that begins at this byte is bad
    Bad(usize),
    // the case does not fit the room
    Long,
    // the file would be longer than its heading can say
    Endless,
    // the file, or the rest of it, is not written
    Lost,
}

impl Complaint {
    // The line on standard error.
    pub fn say(self) {
        match self {
            Complaint::Bad(begun) => bad(begun),
            Complaint::Long => line(b"record: the case has more than 4,194,303 bytes\n"),
            Complaint::Endless => line(b"record: the case has more than 1,073,741,814 frames\n"),
            Complaint::Lost => line(b"record: standard output cannot be written\n"),
        }
    }
}

fn line(text: &[u8]) {
    io::write_all(STDERR, text);
}

fn bad(begun: usize) {
    line(b"record: the case is bad at byte ");
    io::print_decimal(STDERR, begun as u64);
    line(b": the command there is unknown, cut off, or has a number that is out of range\n");
}
