// The parts of a trace's lines, and a case's name.
use crate::hash::bits_of;
use crate::input::{Bad, Input};
use crate::writing::Text;

impl Text {
    // A number behind a space.
    pub fn spaced(&mut self, n: u64) {
        self.put(b' ');
        self.decimal(n);
    }

    // A call's letter and the number of 01's table.
    pub fn called(&mut self, letter: u8, status: u8) {
        self.put(letter);
        self.spaced(u64::from(status));
    }

    // A call that answers a count.
    pub fn counted(&mut self, letter: u8, status: u8, count: u32) {
        self.called(letter, status);
        self.spaced(u64::from(count));
    }

    // A hash behind a space.
    pub fn hashed(&mut self, hash: u64) {
        self.put(b' ');
        self.hex(hash, 16);
    }

    // A render with the hash of its output.
    pub fn rendered(&mut self, status: u8, hash: u64) {
        self.called(b'r', status);
        self.hashed(hash);
    }

    // The listing's end.
    pub fn listed_end(&mut self, letter: u8) {
        self.put(letter);
        self.word(b" 0 end");
    }

    // A row of the listing.
    pub fn listed_row(&mut self, letter: u8, program: u16, bank: u16, next: usize) {
        self.called(letter, 0);
        self.spaced(u64::from(program));
        self.spaced(u64::from(bank));
        self.spaced(next as u64);
    }

    // The clock and the word of the slots that sound.
    pub fn state(&mut self, clock: u32, sounding: u32) {
        self.word(b" | ");
        self.hex(u64::from(clock), 8);
        self.put(b' ');
        self.hex(u64::from(sounding), 8);
    }

    // A stage's letter with its level's bits.
    pub fn level(&mut self, letter: u8, x: f32) {
        self.put(letter);
        self.put(b':');
        self.hex(u64::from(bits_of(x)), 8);
    }

    // The end of what a program writes. A bad command has a line; behind it nothing is played.
    pub fn finish(&mut self, played: Result<(), Bad>) {
        if played.is_err() {
            self.word(b"bad\n");
        }
        self.flush();
    }
}

// t: a case's name of n bytes. They are read before any of them is written, since none is where the command is cut off.
pub fn name(input: &mut Input, text: &mut Text, n: u8) -> Result<(), Bad> {
    let mut bytes = [0u8; 256];
    let name = &mut bytes[..usize::from(n)];
    input.fill(name)?;
    text.word(b"t ");
    text.word(name);
    text.put(b'\n');
    Ok(())
}
