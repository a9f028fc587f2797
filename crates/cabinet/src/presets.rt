// What is told of a bank's presets and samples. Numbers beside the answer go to where the caller points, 0 where there is none.
ghost use Rattle.std.specs.Prelude.{◌≡◌};
ghost use Rattle.bank.specs.Past.{past_memory};
ghost use Rattle.layers.specs.Spans.{sheet_of};
ghost use Rattle.cabinet.specs.Presets.{past_number, past_place};

use layers::{NoSheet, Sheet};

// What is written where nothing is told.
const BLANK: Sheet = Sheet {
    name: 0,
    zones: 0,
    low: 0,
    high: 0,
};

// A preset's sheet: 0 and where its name begins, its zones, its lowest and its highest key; 1 where the bank is not admitted; 2 at the end.
pub fn thularek_preset(
    bytes: &[u8],
    place: u32,
    name: &mut usize,
    zones: &mut u32,
    low: &mut u8,
    high: &mut u8,
) -> u32
    ensures { (result ≡ (sheet_of bytes.now place).kind) × (name.new ≡ (sheet_of bytes.now place).name) × (zones.new ≡ (sheet_of bytes.now place).zones) × (low.new ≡ (sheet_of bytes.now place).low) × (high.new ≡ (sheet_of bytes.now place).high) }
{
    let sheet = layers::preset_sheet(bytes, place);
    let s = sheet.unwrap_or(BLANK);
    *name = s.name as usize;
    *zones = s.zones;
    *low = s.low;
    *high = s.high;
    match sheet {
        Ok(_) => 0,
        Err(NoSheet::NotAdmitted) => 1,
        Err(NoSheet::AtEnd) => 2,
    }
}

// 8 where a window past its memory was found, as a note-on answers; else 0.
fn past_number(f: Option<usize>) -> u32
    ensures { result ≡ past_number f }
{
    match f {
        None => 0,
        Some(_) => 8,
    }
}

// Its place.
fn past_place(f: Option<usize>) -> usize
    ensures { result ≡ past_place f }
{
    match f {
        None => 0,
        Some(p) => p,
    }
}

// Whether a window of an admitted bank ends past its memory, of so many samples: 8 and the place of the first such zone's 53, else 0.
pub fn thularek_past_memory(
    bank: &[u8],
    ram_count: usize,
    rom_count: usize,
    place: &mut usize,
) -> u32
    ensures { (result ≡ past_number (past_memory bank.now ram_count rom_count)) × (place.new ≡ past_place (past_memory bank.now ram_count rom_count)) }
{
    let f = bank::past_memory(bank, ram_count, rom_count);
    *place = past_place(f);
    past_number(f)
}
