// What a case lends: the bytes or samples that are read into an array, and the first of them as a part that is lent on.
ghost use Rattle.std.specs.Prelude.{◌≡◌, ◌≤◌, length, min, take};

use crate::commands::Command;
use crate::input::{Bad, Input, Item};

// The first n of what there is, at most all of it.
pub fn first<T>(items: &[T], n: usize) -> &[T]
    ensures { result.now ≡ take n items.now }
{
    if n < items.len() { &items[..n] } else { items }
}

// A bank, a song or a memory: an array, how many items of a case it holds now, and how many of these are lent.
#[derive(Drop)]
pub struct Held<'a, T> {
    items: &'a mut [T],
    held: usize,
    lent: usize,
}

impl<'a, T: Item> Held<'a, T> {
    // Nothing is held yet.
    pub fn nothing(items: &'a mut [T]) -> Held<'a, T>
        ensures { result ≡ record { items = items.entry; held = 0; lent = 0 } }
    {
        Held {
            items,
            held: 0,
            lent: 0,
        }
    }

    // The next n items, all of them lent, in the array that was lent for them. More than there is room for are bad before any is looked at, and then nothing is held.
    pub fn read(&mut self, input: &mut Input, n: u32) -> Result<(), Bad>
        ensures counts { (self.new.held ≤ length self.new.items.now) × (self.new.lent ≤ self.new.held) }
        ensures array { length self.new.items.now ≡ length self.old.items.now }
    {
        self.held = 0;
        self.lent = 0;
        let count = n as usize;
        if self.items.len() < count {
            input.spoil();
            return Err(Bad);
        }
        input.fill(&mut self.items[..count])?;
        self.held = count;
        self.lent = count;
        Ok(())
    }

    // Only the first n items are lent, at most all that are held.
    pub fn lend_first(&mut self, n: u32)
        ensures { self.new ≡ record self.old { lent = min self.old.held n } }
    {
        self.lent = self.held.min(n as usize);
    }

    // What is lent.
    pub fn lent(&self) -> &[T]
        ensures { result.now ≡ take self.now.lent self.now.items.now }
    {
        first(self.items, self.lent)
    }
}

// What the commands of a case lend to its calls.
#[derive(Drop)]
pub struct Loan<'a> {
    pub bank: Held<'a, u8>,
    pub song: Held<'a, u8>,
    pub ram: Held<'a, i16>,
    pub rom: Held<'a, i16>,
}

impl<'a> Loan<'a> {
    // Nothing is lent.
    pub fn nothing(
        bank: &'a mut [u8],
        song: &'a mut [u8],
        ram: &'a mut [i16],
        rom: &'a mut [i16],
    ) -> Loan<'a>
        ensures { result ≡ record { bank = record { items = bank.entry; held = 0; lent = 0 }; song = record { items = song.entry; held = 0; lent = 0 }; ram = record { items = ram.entry; held = 0; lent = 0 }; rom = record { items = rom.entry; held = 0; lent = 0 } } }
    {
        Loan {
            bank: Held::nothing(bank),
            song: Held::nothing(song),
            ram: Held::nothing(ram),
            rom: Held::nothing(rom),
        }
    }

    // The commands that say what is lent: B, L, M and O lend all of what stands behind them, m and x only the first samples of a memory. The letters are the case's own words, so this is a parser.
    pub fn lend(&mut self, input: &mut Input, c: Command) -> Result<(), Bad> {
        match c.letter {
            b'B' => self.bank.read(input, c.first),
            b'L' => self.song.read(input, c.first),
            b'M' => self.ram.read(input, c.first),
            b'O' => self.rom.read(input, c.first),
            b'm' => {
                self.ram.lend_first(c.first);
                Ok(())
            }
            _ => {
                self.rom.lend_first(c.first);
                Ok(())
            }
        }
    }
}
