// What the engine says of a lent bank: admission, and the listing.
ghost use Rattle.std.specs.Prelude.{◌≡◌};
ghost use Rattle.bank.specs.Admission.{fault_of, fault_number};
ghost use Rattle.bank.specs.Listing.{listed};

use bank::Listed;

// Admission: 0 where the bank is admitted, else 1.
pub fn admit(bank: &[u8]) -> u8
    ensures { result ≡ fault_number (fault_of bank.now) }
{
    bank::admission_number(bank)
}

// The listing, one step: program and bank of the record at a place, and the next place, or the end.
pub fn list(bank: &[u8], place: u32) -> Listed
    ensures { result ≡ listed bank.now place }
{
    bank::listed_at(bank, place)
}
