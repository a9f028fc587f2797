// U at an event, and what is past an hour.
ghost use Rattle.std.specs.Prelude.{◌≡◌, ◌+◌, ◌*◌, ◌-◌, ◌≤◌, min};
ghost use Rattle.merge.specs.Lateness.{tempo_after, nearer};
ghost use Rattle.merge.specs.Internal.Order.{hour_after};

use crate::{Entry, Hour};
use smf::Item;

// The ticks from one to another; none where it is not behind.
pub fn gap(from: u64, to: u64) -> u64
    ensures { result ≡ to - from }
{
    to.saturating_sub(from)
}

// U behind so many ticks of a tempo, held at one past the limit.
fn sum_behind(limit: u64, sum: u64, ticks: u64, tempo: u32) -> u64
    requires { (limit ≤ 1000000000000000) × (sum ≤ limit + 1) }
    ensures { result ≡ min (sum + ticks * tempo) (limit + 1) }
{
    let left = limit + 1 - sum;
    if tempo == 0 {
        return sum;
    }
    if left / (tempo as u64) < ticks {
        return limit + 1;
    }
    sum + ticks * (tempo as u64)
}

// The tempo behind an event.
fn tempo_after(tempo: u32, item: Item) -> u32
    ensures { result ≡ tempo_after tempo item }
{
    match item {
        Item::Tempo { tempo: next, .. } => next,
        _ => tempo,
    }
}

// The smaller of two places.
fn nearer_of(place: u32, s: Option<u32>) -> Option<u32>
    ensures { result ≡ nearer place s }
{
    match s {
        None => Some(place),
        Some(other) => Some(place.min(other)),
    }
}

// The time at an event.
pub fn hour_after(h: Hour, e: Entry, limit: u64) -> Hour
    requires { (limit ≤ 1000000000000000) × (h.sum ≤ limit + 1) }
    ensures { result ≡ hour_after h e limit }
{
    let sum = sum_behind(limit, h.sum, gap(h.tick, e.tick), h.tempo);
    let item = e.item;
    let tempo = tempo_after(h.tempo, item);
    let late = h.late;
    if limit < sum {
        return Hour {
            tick: e.tick,
            tempo,
            sum,
            late: nearer_of(e.place, late),
        };
    }
    Hour {
        tick: e.tick,
        tempo,
        sum,
        late,
    }
}
