// The way of a place from frame to frame, with nothing left to divide.
ghost use Rattle.std.specs.Prelude.{◌≡◌, ℕ, ◌+◌, ◌-◌, ◌%◌, ◌<◌, ◌≤◌};
ghost use Rattle.voice.specs.Internal.Way.{next_place, OnWay};

use crate::motion::{is_folding, span_of};
use crate::{Stage, Voice};

// Places in 2^-24 samples.
#[derive(Clone, Copy)]
pub struct Way {
    // the first place that goes by it, and the one behind its last
    pub from: u64,
    pub limit: u64,
    pub step: u64,
    // a place at or past the end goes back
    pub end: u64,
    pub back: u64,
}

// Before a loop, or without one: straight on, while a step stays before the end.
fn straight(end: u64, st: u64) -> Way
    ensures place { (result.from ≡ 0) × (result.step ≡ st) × (result.end ≡ end) × (result.back ≡ 0) × (result.limit ≤ end) }
    ensures limit { (p : ℕ) → p < result.limit → p + st < end }
{
    if end < st {
        return Way {
            from: 0,
            limit: 0,
            step: st,
            end,
            back: 0,
        };
    }
    Way {
        from: 0,
        limit: end - st,
        step: st,
        end,
        back: 0,
    }
}

// A step without its whole loop lengths; most steps are shorter than a loop, and then it takes no division.
fn rest(st: u64, length: u64) -> u64
    requires { 0 < length }
    ensures { result ≡ st % length }
{
    if st < length {
        return st;
    }
    st % length
}

// In the loop from a to b: so short a step passes the end by less than one length.
fn round(a: u64, b: u64, st: u64) -> Way
    requires { a < b }
    ensures { (result.from ≡ a) × (result.limit ≡ b) × (result.step ≡ st % (b - a)) × (result.end ≡ b) × (result.back ≡ b - a) }
{
    let length = b - a;
    let step = rest(st, length);
    Way {
        from: a,
        limit: b,
        step,
        end: b,
        back: length,
    }
}

// The way from the voice's place on.
pub fn way_of(v: Voice, s: Stage, step: u32) -> Way
    ensures leads { OnWay v s step result × (result.from ≤ v.place) }
    ensures size { (result.limit ≤ 72057594037927936) × (result.step < 72057594037927936) × (result.back ≤ result.end) }
{
    let st = step as u64;
    if !is_folding(v, s) {
        return straight(span_of(v) * 16777216, st);
    }
    let a = (v.loopfrom as u64) * 16777216;
    let b = (v.loopto as u64) * 16777216;
    if v.place < a {
        return straight(b, st);
    }
    round(a, b, st)
}

// The place behind a place.
pub fn next_place(y: Way, p: u64) -> u64
    requires { (p ≤ 72057594037927936) × (y.step < 72057594037927936) × (y.back ≤ y.end) }
    ensures { result ≡ next_place y p }
{
    let n = p + y.step;
    if n < y.end { n } else { n - y.back }
}
