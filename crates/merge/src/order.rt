// All events in one sequence: each step takes the first of the tracks whose next event is earliest.
ghost use Rattle.std.specs.Prelude.{◌++◌, ◌≡◌, ◌+◌, ◌*◌, ◌≤◌, length};
ghost use Rattle.merge.specs.Internal.Lanes.{Lined, lane_sequence, better_of, Earliest};
ghost use Rattle.merge.specs.Internal.Lines.{laid_over, head_bytes, line_bytes, line_start};
ghost use Rattle.merge.specs.Internal.Order.{hour_start, told_of, tally_start, tally_of};

use crate::entries::{NO_TICK, advanced};
use crate::lateness::hour_after;
use crate::lines::{line_after, line_start, put_end, put_entry, put_head};
use crate::sizes::{entry_size, grown};
use crate::{Best, Entry, Hour, Tally, Tracks};

// The smaller of two ticks; the first of two that are the same.
fn better(best: Best, tick: u64, lane: usize) -> Best
    ensures { result ≡ better_of best tick lane }
{
    if tick < best.tick {
        return Best { tick, lane };
    }
    best
}

// The first of the tracks whose next event is earliest; their number where all are over.
fn earliest(ticks: &[u64; 256], count: usize) -> usize
    requires { count ≤ 256 }
    ensures { Earliest ticks.now count result }
{
    let mut best = Best {
        tick: NO_TICK,
        lane: count,
    };
    for i in 0..count {
        best = better(best, ticks[i], i);
    }
    best.lane
}

// What a song needs in front of its first event.
fn tally_start() -> Tally
    ensures { result ≡ tally_start }
{
    Tally {
        hour: Hour {
            tick: 0,
            tempo: 500000,
            sum: 0,
            late: None,
        },
        line: line_start(),
        size: 22,
    }
}

// .. behind an event.
fn told(t: Tally, e: Entry, limit: u64) -> Tally
    requires { (limit ≤ 1000000000000000) × (t.hour.sum ≤ limit + 1) × (t.size ≤ 4294967318) }
    ensures { result ≡ told_of t e limit }
{
    Tally {
        hour: hour_after(t.hour, e, limit),
        line: line_after(t.line, e),
        size: grown(t.size, entry_size(t.line, e)),
    }
}

// .. behind all of them. No index counts the events: which track is next, their ticks say.
pub fn tally(b: &[u8], l: Tracks, division: u16) -> Tally
    requires { Lined b.now l }
    ensures { result ≡ tally_of tally_start (lane_sequence b.now l) (3600000000 * division) }
{
    let limit = 3600000000 * (division as u64);
    let mut ticks = l.ticks;
    let mut entries = l.entries;
    let mut t = tally_start();
    let mut j = earliest(&ticks, l.count);
    while j < l.count {
        let e = entries[j];
        t = told(t, e, limit);
        let next = advanced(b, e);
        ticks[j] = next.tick;
        entries[j] = next;
        j = earliest(&ticks, l.count);
    }
    t
}

// The file of the sequence, whose track has so many bytes. Here too the ticks say which track is next.
pub fn write(b: &[u8], out: &mut [u8], l: Tracks, division: u16, size: u32)
    requires lined { Lined b.now l }
    requires room { 22 + length (line_bytes line_start (lane_sequence b.now l)) ≤ length out.old }
    ensures output { out.new ≡ laid_over out.old 0 (head_bytes division size ++ line_bytes line_start (lane_sequence b.now l)) }
{
    let mut at = put_head(out, division, size);
    let mut ticks = l.ticks;
    let mut entries = l.entries;
    let mut line = line_start();
    let mut j = earliest(&ticks, l.count);
    while j < l.count {
        let e = entries[j];
        at = put_entry(out, at, line, e);
        line = line_after(line, e);
        let next = advanced(b, e);
        ticks[j] = next.tick;
        entries[j] = next;
        j = earliest(&ticks, l.count);
    }
    put_end(out, at, line);
}
