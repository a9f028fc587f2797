// Admission of a bank as seven tests, and its listing (01, "Bank admission").

#![tactic(auto)]

ghost use Rattle.std.specs.Prelude.{◌≡◌};
ghost use Rattle.bank.specs.Admission.{long_fault, fault_at, fault_of, fault_number, admitted};

mod bounds;
mod framing;
mod indexes;
mod links;
mod listing;
mod past;
mod rates;

pub use listing::listed_at;
pub use past::past_memory;

// The seven tests, in their order. The number of each is the one that C is told.
#[derive(Clone, Copy)]
pub enum FaultKind {
    Long = 1,
    Chunk = 2,
    Records = 3,
    Index = 4,
    Number = 5,
    Rate = 6,
    Window = 7,
}

// What is wrong with a bank: the test that it fails, and the byte place.
#[derive(Clone, Copy)]
pub struct Fault {
    pub kind: FaultKind,
    pub place: usize,
}

// What the listing gives at a place.
#[derive(Clone, Copy)]
pub enum Listed {
    Refused,
    End,
    Row {
        program: u16,
        bank: u16,
        next: usize,
    },
}

// A test's answer: the place that it found is a fault of its kind.
fn fault_at(kind: FaultKind, found: Option<usize>) -> Result<(), Fault>
    ensures { result ≡ fault_at kind found }
{
    match found {
        None => Ok(()),
        Some(place) => Err(Fault { kind, place }),
    }
}

// Test 1: too long.
fn long_fault(b: &[u8]) -> Option<usize>
    ensures { result ≡ long_fault b.now }
{
    if 65536 < b.len() {
        return Some(65536);
    }
    None
}

// Admission: the first fault of the first kind, or none.
pub fn admission(b: &[u8]) -> Result<(), Fault>
    ensures { result ≡ fault_of b.now }
{
    fault_at(FaultKind::Long, long_fault(b))?;
    fault_at(FaultKind::Chunk, framing::chunk_fault(b))?;
    fault_at(FaultKind::Records, framing::records_fault(b))?;
    let m = records::parts_of(b);
    fault_at(FaultKind::Index, indexes::index_fault(b, m))?;
    fault_at(FaultKind::Number, links::number_fault(b, m))?;
    fault_at(FaultKind::Rate, rates::rate_fault(b, m))?;
    fault_at(FaultKind::Window, bounds::window_fault(b, m))
}

// 01's number for what was found.
fn number_of(f: Result<(), Fault>) -> u8
    ensures { result ≡ fault_number f }
{
    match f {
        Ok(()) => 0,
        Err(_) => 1,
    }
}

// 0 where the bank is admitted, else 1.
pub fn admission_number(b: &[u8]) -> u8
    ensures { result ≡ fault_number (fault_of b.now) }
{
    number_of(admission(b))
}

// Whether a bank is admitted.
pub fn admitted(b: &[u8]) -> bool
    ensures { result ≡ admitted b.now }
{
    admission_number(b) == 0
}
