// Key and velocity ranges (01, "From a key to layers").
ghost use Rattle.std.specs.Prelude.{◌≡◌, ◌≤◌, min, max};
ghost use Rattle.layers.specs.Ranges.{has_as, range_at, inside, key_range, velocity_range, matches};
ghost use Rattle.layers.specs.Spans.{common, joined, filled};

use crate::Range;
use records::{Side, Zone};

impl Range {
    // Whether a key or velocity is in the range.
    #[tactic(auto, unfolding(crate::specs::Ranges::inside, arith::specs::Holds::between))]
    pub(crate) fn holds(self, x: u8) -> bool
        ensures { result ≡ inside self x }
    {
        self.low <= x && x <= self.high
    }

    // Whether there is something in the range.
    #[tactic(auto, unfolding(crate::specs::Spans::filled))]
    pub(crate) fn filled(self) -> bool
        ensures { result ≡ filled self }
    {
        self.low <= self.high
    }

    // What two ranges have in common.
    #[tactic(auto, unfolding(crate::specs::Spans::common))]
    pub(crate) fn common(self, other: Range) -> Range
        ensures { result ≡ common self other }
    {
        Range {
            low: self.low.max(other.low),
            high: self.high.min(other.high),
        }
    }

    // From the lower of two lows to the higher of two highs.
    #[tactic(auto, unfolding(crate::specs::Spans::joined))]
    pub(crate) fn joined(self, other: Range) -> Range
        ensures { result ≡ joined self other }
    {
        Range {
            low: self.low.min(other.low),
            high: self.high.max(other.high),
        }
    }
}

// Whether a zone's generator n is there and has an operator.
#[tactic(auto, unfolding(crate::specs::Ranges::has_as))]
fn has_as(b: &[u8], s: Side, z: Zone, n: u32, o: u16) -> bool
    ensures { result ≡ has_as b.now s z n o }
{
    n < z.count && records::has(b, s, o, (z.from as usize) + (n as usize))
}

// The amount of generator g as a range, the low byte first.
fn range_at(b: &[u8], s: Side, g: usize) -> Range
    requires { g ≤ 8589934592 }
    ensures { result ≡ range_at b.now s g }
{
    let a = records::amount(b, s, g);
    Range {
        low: (a % 256) as u8,
        high: (a / 256) as u8,
    }
}

// A key range counts only as first generator.
pub fn key_range(b: &[u8], s: Side, z: Zone, d: Range) -> Range
    ensures { result ≡ key_range b.now s z d }
{
    if has_as(b, s, z, 0, 43) {
        return range_at(b, s, z.from as usize);
    }
    d
}

// A velocity range counts as first, or as second behind a key range.
#[tactic(auto, unfolding(crate::specs::Ranges::velocity_range))]
pub fn velocity_range(b: &[u8], s: Side, z: Zone, d: Range) -> Range
    ensures { result ≡ velocity_range b.now s z d }
{
    if has_as(b, s, z, 0, 44) {
        return range_at(b, s, z.from as usize);
    }
    if has_as(b, s, z, 0, 43) && has_as(b, s, z, 1, 44) {
        return range_at(b, s, (z.from as usize) + 1);
    }
    d
}

// Whether a zone, with the global one of its head, matches key and velocity.
#[tactic(auto, unfolding(crate::specs::Ranges::matches))]
pub fn matches(b: &[u8], s: Side, local: Zone, global: Zone, key: u8, velocity: u8) -> bool
    ensures { result ≡ matches b.now s local global key velocity }
{
    let keys = key_range(b, s, local, key_range(b, s, global, Range::WHOLE));
    let velocities = velocity_range(b, s, local, velocity_range(b, s, global, Range::WHOLE));
    keys.holds(key) && velocities.holds(velocity)
}
