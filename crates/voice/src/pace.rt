// The pace of a stage: what grows in it from frame to frame, with nothing left to divide.
ghost use Rattle.std.specs.Prelude.{◌≡◌, ℕ, ◌+◌, ◌*◌, ◌-◌, ◌<◌, ◌≤◌};
ghost use Rattle.voice.specs.Internal.Pace.{some, stop_if, stop_in, level_in, cb_in, Paced, PaceAt};

use crate::{Stage, Voice};

// A quotient over the stage's frames, what is left over of it, and what one frame more adds to both.
#[derive(Clone, Copy)]
pub struct Pace {
    pub value: u64,
    pub over: u64,
    pub by: u64,
    pub more: u64,
    pub frames: u64,
}

// n, at least 1.
fn at_least_one(n: u32) -> u64
    ensures { (result ≡ some n) × (0 < result) × (result < 4294967296) }
{
    if n == 0 { 1 } else { n as u64 }
}

// floor(whole * t / n)
fn paced(whole: u64, n: u32, t: u32) -> Pace
    requires { whole ≤ 16777216 }
    ensures { Paced whole (some n) (whole * t) result }
{
    let frames = at_least_one(n);
    let sum = whole * (t as u64);
    Pace {
        value: sum / frames,
        over: sum % frames,
        by: whole / frames,
        more: whole % frames,
        frames,
    }
}

// The pace at a stage.
pub fn pace_of(v: Voice, s: Stage) -> Pace
    ensures { PaceAt v s result }
{
    match s {
        Stage::Delay { .. } => paced(0, 1, 0),
        Stage::Attack { t } => paced(16777216, v.attack, t),
        Stage::Hold { t } => paced(1, 1, t),
        Stage::Decay { t } => paced(1000, v.decay, t),
        Stage::Sustain => paced(0, 1, 0),
        Stage::Release { t, .. } => paced(1000, v.release, t),
    }
}

// One frame more.
pub fn next_pace(c: Pace) -> Pace
    requires { (c.value < 72057594037927936) × (c.over < 4294967296) × (c.by < 4294967296) × (c.more < 4294967296) }
    ensures { (whole frames sum : ℕ) → Paced whole frames sum c → Paced whole frames (sum + whole) result }
{
    let value = c.value + c.by;
    let over = c.over + c.more;
    if over < c.frames {
        return Pace { value, over, ..c };
    }
    Pace {
        value: value + 1,
        over: over - c.frames,
        ..c
    }
}

// A stage of no frames is over at once.
fn stop_if(n: u32, stop: u64) -> u64
    ensures { (result ≡ stop_if n stop) × (result ≤ stop) }
{
    if n == 0 { 0 } else { stop }
}

// How much is left of 1,000 cB.
fn left_of(cb: u16) -> u64
    ensures { result ≡ 1000 - cb }
{
    u64::from(1000u16.saturating_sub(cb))
}

// From this value on the stage is spent, or the voice has died away.
pub fn stop_of(v: Voice, s: Stage) -> u64
    ensures { (result ≡ stop_in v s) × (result < 4294967296) }
{
    match s {
        Stage::Delay { .. } => 0,
        Stage::Attack { .. } => stop_if(v.attack, 16777216),
        Stage::Hold { .. } => v.hold as u64,
        Stage::Decay { .. } => stop_if(v.decay, u64::from(v.sustain.min(1000))),
        Stage::Sustain => left_of(v.sustain),
        Stage::Release { from, .. } => stop_if(v.release, left_of(from)),
    }
}

// The level at a value.
pub fn level_in(s: Stage, value: u64) -> u64
    ensures { result ≡ level_in s value }
{
    match s {
        Stage::Attack { .. } => value,
        _ => 16777216,
    }
}

// A release's cB: what it began with, and the value.
fn fallen(from: u16, value: u64) -> u64
    requires { value < 8796092956672 }
    ensures { (result ≡ from + value) × (result < 8796093022208) }
{
    from as u64 + value
}

// The envelope's cB at a value.
pub fn cb_in(v: Voice, s: Stage, value: u64) -> u64
    requires { value < 8796092956672 }
    ensures { (result ≡ cb_in v s value) × (result < 8796093022208) }
{
    match s {
        Stage::Delay { .. } | Stage::Attack { .. } | Stage::Hold { .. } => 0,
        Stage::Decay { .. } => value,
        Stage::Sustain => u64::from(v.sustain),
        Stage::Release { from, .. } => fallen(from, value),
    }
}
