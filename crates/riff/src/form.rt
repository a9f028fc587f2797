// The form: a chunk RIFF of type sfbk, its lists, and the chunk of samples in one of them.
ghost use Rattle.std.specs.Prelude.{◌≡◌, ◌≤◌, ◌<◌, MatchResult};
ghost use Rattle.riff.specs.Chunks.{size_at, stop_at, first_at};
ghost use Rattle.riff.specs.Form.{told_font, list_body, chunk_body, data_span, found_in, find_of};

use crate::chunks::LIST;
use crate::{Fault, FaultKind, Font, Part, chunks};

// Names and types as numbers, the low byte first.
const RIFF: u32 = 1179011410;

const SFBK: u32 = 1801610867;

const PDTA: u32 = 1635017840;

const SDTA: u32 = 1635017843;

const SMPL: u32 = 1819307379;

// Chunks from a place up to an end.
#[derive(Clone, Copy)]
pub struct Span {
    pub from: usize,
    pub end: usize,
}

// A fault of a kind at a place.
fn fault(kind: FaultKind, place: usize) -> Fault
    ensures { result ≡ record { kind = kind; place = place } }
{
    Fault { kind, place }
}

// A list's body behind its type.
#[tactic(auto, unfolding(crate::specs::Form::list_body))]
fn list_body(b: &[u8], at: usize) -> Part
    requires at_bound { at ≤ 4294967303 }
    requires typed { 4 ≤ size_at b.now at }
    ensures { result ≡ list_body b.now at }
{
    Part {
        at: at + 12,
        size: chunks::size_at(b, at) - 4,
    }
}

// A chunk's body.
#[tactic(auto, unfolding(crate::specs::Form::chunk_body))]
fn chunk_body(b: &[u8], at: usize) -> Part
    requires { at ≤ 4294967303 }
    ensures { result ≡ chunk_body b.now at }
{
    Part {
        at: at + 8,
        size: chunks::size_at(b, at),
    }
}

// The chunks in the first sdta list; none, at the form's end, where there is no such list.
#[tactic(auto, unfolding(crate::specs::Form::data_span, crate::specs::Form::data_at, crate::specs::Internal::Chunks::sought_at))]
fn data_span(b: &[u8], end: usize) -> Span
    requires { (12 ≤ end) × (end ≤ 4294967303) }
    ensures { result ≡ data_span b.now end }
{
    match chunks::first(b, end, LIST, SDTA, 12) {
        Some(at) => Span {
            from: at + 12,
            end: at + 8 + chunks::size_at(b, at),
        },
        None => Span { from: end, end },
    }
}

// Each chunk from a place up to an end has to be whole; the first that is not is the fault.
fn all_whole(b: &[u8], end: usize, from: usize) -> Result<(), Fault>
    requires { (from ≤ end) × (end ≤ 4294967303) }
    ensures { MatchResult result (λ _. stop_at b.now end from ≡ end) (λ f. (f ≡ record { kind = FaultKind.Broken; place = stop_at b.now end from }) × (stop_at b.now end from ≡ end → ⊥)) }
{
    let stop = chunks::stop(b, end, from);
    if stop != end {
        return Err(fault(FaultKind::Broken, stop));
    }
    Ok(())
}

// Where the first chunk of a name and a type begins; the fault is that there is none in front of the end.
#[tactic(auto, unfolding(crate::specs::Internal::Chunks::sought_at))]
fn sought(b: &[u8], end: usize, name: u32, kind: u32, from: usize) -> Result<usize, Fault>
    requires { (from ≤ end) × (end ≤ 4294967303) }
    ensures { MatchResult result (λ at. (at ≡ first_at b.now end name kind from) × (at < end)) (λ f. (f ≡ record { kind = FaultKind.Missing; place = end }) × (first_at b.now end name kind from ≡ end)) }
{
    chunks::first(b, end, name, kind, from).ok_or(fault(FaultKind::Missing, end))
}

// What the form holds: each chunk of the sdta list and of the form has to be whole, then both parts have to be there.
#[tactic(auto, unfolding(crate::specs::Form::found_in, crate::specs::Form::refused_by, crate::specs::Form::samples_at, crate::specs::Form::bank_at))]
fn found_in(b: &[u8], end: usize) -> Result<Font, Fault>
    requires { (12 ≤ end) × (end ≤ 4294967303) }
    ensures { told_font result ≡ found_in b.now end (data_span b.now end) }
{
    let data = data_span(b, end);
    all_whole(b, data.end, data.from)?;
    all_whole(b, end, 12)?;
    let samples = sought(b, data.end, SMPL, 0, data.from)?;
    let bank = sought(b, end, LIST, PDTA, 12)?;
    Ok(Font {
        bank: list_body(b, bank),
        samples: chunk_body(b, samples),
    })
}

// The bank and the samples of a SoundFont file, or its first fault.
#[tactic(auto, unfolding(crate::specs::Form::find_of, crate::specs::Form::refused_by))]
pub fn find(file: &[u8]) -> Result<Font, Fault>
    ensures { told_font result ≡ find_of file.now }
{
    if arith::u32_at(file, 0) != RIFF {
        return Err(fault(FaultKind::NotFont, 0));
    }
    if arith::u32_at(file, 8) != SFBK {
        return Err(fault(FaultKind::NotFont, 8));
    }
    let size = chunks::size_at(file, 0);
    if size < 4 {
        return Err(fault(FaultKind::Broken, 0));
    }
    let end = 8 + size;
    if file.len() < end {
        return Err(fault(FaultKind::Broken, 0));
    }
    found_in(file, end)
}
