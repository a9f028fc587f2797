// The listing as a plain step from one place, a record's number, to the next (01, "Bank admission").
ghost use Rattle.std.specs.Prelude.{◌≡◌};
ghost use Rattle.bank.specs.Listing.{listed};

use crate::{Listed, admitted};
use arith::less;

// Program and bank of the phdr record at a place, and the next place; any place at or past the terminal's gives the end.
pub fn listed_at(b: &[u8], place: u32) -> Listed
    ensures { result ≡ listed b.now place }
{
    if admitted(b) {
        let m = records::parts_of(b);
        let p = m.presets;
        if place < less(p.nheads, 1) {
            return Listed::Row {
                program: records::program_of(b, m, place),
                bank: records::bank_of(b, m, place),
                next: (place as usize) + 1,
            };
        }
        return Listed::End;
    }
    Listed::Refused
}
