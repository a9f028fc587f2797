// A stretch: frames in which the gain stays and the place neither folds nor ends, in one short loop.
ghost use Rattle.std.specs.Prelude.{◌≡◌, [], ◌∷◌, ℕ, ◌+◌, ◌*◌, ◌/◌, ◌%◌, ◌<◌, ◌≤◌, length};
ghost use Rattle.arith.specs.Within.{Within};
ghost use Rattle.voice.specs.Internal.Sums.{add_at, From, Small, loudest};
ghost use Rattle.voice.specs.Internal.Stretch.{top, Clear, between, plains};

use crate::motion::{is_folding, span_of};
use crate::reading::reading_of;
use crate::sides::{Sides, part_of};
use crate::sound::scaled_by;
use crate::{Stage, Voice};

// How far a stretch came.
#[derive(Clone, Copy)]
pub struct Reached {
    pub frames: usize,
    pub place: u64,
}

// Below this place a frame reads three samples before the end, and a step leads to neither fold nor end.
fn bound(end: u64, len: u64, st: u64) -> u64
    requires { end < 4294967296 }
    ensures clear { (p : ℕ) → p < result → (p / 16777216 + 2 < end) × (p / 16777216 + 2 < len) × (p + st < end * 16777216) }
    ensures size { result ≤ 72057594037927936 }
{
    let last = end.min(len);
    if last < 2 {
        return 0;
    }
    let all = end * 16777216;
    if all < st {
        return 0;
    }
    ((last - 2) * 16777216).min(all - st)
}

// The loop's end, or the window's if it does not fold.
fn end_of(v: Voice, s: Stage) -> u64
    ensures { (result ≡ top v s) × (result < 4294967296) }
{
    if is_folding(v, s) {
        return v.loopto as u64;
    }
    span_of(v)
}

// A loop of less than 16 steps.
fn is_short(v: Voice, s: Stage, st: u32) -> bool {
    if !is_folding(v, s) {
        return false;
    }
    u64::from(v.loopto.saturating_sub(v.loopfrom)) * 16777216 < 16 * (st as u64)
}

// A stage in which the level rises, or the gain is another one after less than 16 frames.
fn is_quick(v: Voice, s: Stage) -> bool {
    match s {
        Stage::Delay { .. } | Stage::Attack { .. } => true,
        Stage::Hold { .. } | Stage::Sustain => false,
        Stage::Decay { .. } => v.decay < 16000,
        Stage::Release { .. } => v.release < 16000,
    }
}

// Whether stretches would be too short to be worth their start.
pub fn is_uneven(v: Voice, s: Stage, st: u32) -> bool {
    if is_quick(v, s) {
        return true;
    }
    is_short(v, s, st)
}

// The place from which on a stretch may not go; 0 where none may begin.
pub fn limit_of(v: Voice, s: Stage, st: u32, w: &[i16]) -> u64
    ensures clear { (p : ℕ) → p < result → Clear w.now v s st p }
    ensures begins { 0 < result → (16777216 ≤ v.place) × (0 < st) }
    ensures size { result ≤ 72057594037927936 }
{
    if v.place < 16777216 {
        return 0;
    }
    if st == 0 {
        return 0;
    }
    if is_uneven(v, s, st) {
        return 0;
    }
    let end = end_of(v, s);
    bound(end, w.len() as u64, st as u64)
}

// The reading between a sample and the next, away from the window's ends.
fn read_on(w: &[i16], p: u64) -> i64
    requires { (16777216 ≤ p) × (p / 16777216 + 2 < length w.now) }
    ensures { (result ≡ between w.now (p / 16777216) (p % 16777216 / 4096)) × Within result 32768 }
{
    let i = (p / 16777216) as usize;
    let q = (p % 16777216 / 4096) as u32;
    let x0 = w[i - 1];
    let x1 = w[i];
    let x2 = w[i + 1];
    let x3 = w[i + 2];
    reading_of(x0, x1, x2, x3, q)
}

// A frame's two numbers, added into frame k of the sums.
pub fn add_pair(acc: &mut [i32], k: usize, left: i32, right: i32)
    requires sums { (2 * k + 1 < length acc.old) × From (2 * k) acc.old }
    requires pair { Within left loudest × Within right loudest }
    ensures { acc.new ≡ add_at (2 * k) (left ∷ right ∷ []) acc.old }
{
    let a = acc[2 * k] + left;
    acc[2 * k] = a;
    let b = acc[2 * k + 1] + right;
    acc[2 * k + 1] = b;
}

// Frames from a place on, at most so many, until the limit is reached.
pub fn glide(
    st: u32,
    gain: u32,
    sides: Sides,
    limit: u64,
    w: &[i16],
    from: u64,
    acc: &mut [i32],
    k: usize,
    most: usize,
) -> Reached
    requires level { (gain ≤ 16777216) × (sides.left ≤ 274877906944) × (sides.right ≤ 274877906944) }
    requires window { (limit ≤ 72057594037927936) × ((p : ℕ) → p < limit → p / 16777216 + 2 < length w.now) }
    requires begins { (0 < st) × (16777216 ≤ from) × (from < limit) × (most ≤ 65536) }
    requires sums { (2 * (k + most) ≤ length acc.old) × From (2 * k) acc.old }
    ensures count { (result.frames ≤ most) × (0 < most → 0 < result.frames) }
    ensures place { (result.place ≡ from + result.frames * st) × ((j : ℕ) → j < result.frames → from + j * st < limit) }
    ensures sums { acc.new ≡ add_at (2 * k) (plains gain sides.left sides.right w.now st from result.frames) acc.old }
    ensures small { Small 1 (plains gain sides.left sides.right w.now st from result.frames) }
{
    // One test a frame: the limit, or where the last of so many frames leads. A `while`, since the place that was reached
    // is wanted behind the loop, and `step_by` does not tell it.
    let end = limit.min(from + (most as u64) * (st as u64));
    let mut p = from;
    let mut m: usize = 0;
    while p < end {
        let x = read_on(w, p);
        let u = scaled_by(x, gain);
        let a = part_of(u, sides.left);
        let b = part_of(u, sides.right);
        add_pair(acc, k + m, a, b);
        p = p + (st as u64);
        m = m + 1;
    }
    Reached {
        frames: m,
        place: p,
    }
}
