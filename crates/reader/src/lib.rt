// The listing reader, which keeps the lent bank and its place (01, "Bank admission"). Each function over a struct that holds
// a reference takes it apart, and calls one on slice and number.

#![tactic(auto)]

ghost use Rattle.std.specs.Prelude.{◌≡◌};
ghost use Rattle.bank.specs.Admission.{fault_number, fault_of};
ghost use Rattle.bank.specs.Listing.{listed};
ghost use Rattle.reader.specs.Reader.{further, nth_listed, next_of, opened_of};

use bank::Listed;

// The lent bank, and the number of the record that is next.
#[derive(Clone, Copy)]
pub struct Reader<'a> {
    pub bank: &'a [u8],
    pub place: u32,
}

// What opening gives: 01's number, 1 where the bank is not admitted, and the reader at record 0.
#[derive(Clone, Copy)]
pub struct Opened<'a> {
    pub number: u8,
    pub reader: Reader<'a>,
}

// What a next gives: what stands at the place, and the reader one further.
#[derive(Clone, Copy)]
pub struct Taken<'a> {
    pub listed: Listed,
    pub reader: Reader<'a>,
}

// What stands at a place, and the place of the next.
#[derive(Clone, Copy)]
pub struct Step {
    pub listed: Listed,
    pub place: u32,
}

// The work of a next, on slice and number.
pub fn step_from(bank: &[u8], place: u32) -> Step
    ensures { (result.listed ≡ listed bank.now place) × (result.place ≡ further bank.now place) }
{
    let listed = bank::listed_at(bank, place);
    match listed {
        Listed::Row {
            program: _,
            bank: _,
            next,
        } => Step {
            listed,
            place: next as u32,
        },
        Listed::End => Step { listed, place },
        Listed::Refused => Step { listed, place },
    }
}

// A reader at the first record; of a bank that is not admitted each next is refused.
pub fn open<'a>(bank: &'a [u8]) -> Opened<'a>
    ensures { result ≡ opened_of bank.entry }
{
    let number = bank::admission_number(bank);
    Opened {
        number,
        reader: Reader { bank, place: 0 },
    }
}

// What stands at the reader's place, and the reader one further.
pub fn next<'a>(r: Reader<'a>) -> Taken<'a>
    ensures { result ≡ next_of r.entry }
{
    let s = step_from(r.bank, r.place);
    Taken {
        listed: s.listed,
        reader: Reader {
            bank: r.bank,
            place: s.place,
        },
    }
}

// 01's number for opening.
pub fn opens(bank: &[u8]) -> u8
    ensures { result ≡ fault_number (fault_of bank.now) }
{
    open(bank).number
}

// What the k-th next from opening gives, counted from 0.
pub fn nth(bank: &[u8], k: u32) -> Listed
    ensures { result ≡ nth_listed bank.now k }
{
    next(Reader { bank, place: k }).listed
}
