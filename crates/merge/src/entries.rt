// The events of one track, one after the other.
ghost use Rattle.std.specs.Prelude.{◌≡◌, ◌*◌, ◌≤◌, length};
ghost use Rattle.smf.specs.Songs.{turns};
ghost use Rattle.merge.specs.Entries.{no_tick, noted, settled_at, gone, advanced_of, flaw_from};
ghost use Rattle.merge.specs.Internal.Entries.{Settled, goes_on, flaw_at};

use crate::Entry;
use smf::Item;
use smf::items::item_at;
use smf::quantities::quantity_at;
use smf::track::is_bad;

// Stands for no tick.
pub const NO_TICK: u64 = 18446744073709551615;

// An event with its tick and its place.
fn noted_at(item: Item, tick: u64, place: u32, end: u32) -> Entry
    ensures { result ≡ noted item tick place end }
{
    Entry {
        tick: if is_bad(item) { NO_TICK } else { tick },
        place,
        end,
        item,
    }
}

// The delta time at a place and the event behind it.
pub fn settled(b: &[u8], end: u32, running: u8, at: u32, tick: u64) -> Entry
    requires { (length b.now ≤ 16777216) × (end ≤ length b.now) × (tick ≤ at * 268435456) }
    ensures value { result ≡ settled_at b.now end running at tick }
    ensures settled { Settled b.now result }
{
    let Some(q) = quantity_at(b, end, at) else {
        return noted_at(Item::Bad, tick, at, end);
    };
    let item = item_at(b, end, running, q.behind);
    noted_at(item, tick + (q.value as u64), q.behind, end)
}

// Behind a track's last event.
fn gone_from(e: Entry) -> Entry
    ensures { result ≡ gone e }
{
    Entry {
        tick: NO_TICK,
        item: Item::Bad,
        ..e
    }
}

// The next event of a track.
pub fn advanced(b: &[u8], e: Entry) -> Entry
    requires { Settled b.now e }
    ensures value { result ≡ advanced_of b.now e }
    ensures settled { Settled b.now result }
{
    let item = e.item;
    match item {
        Item::Bad => gone_from(e),
        Item::End => gone_from(e),
        Item::Passed { behind } => settled(b, e.end, 0, behind, e.tick),
        Item::Tempo { behind, .. } => settled(b, e.end, 0, behind, e.tick),
        Item::Channel { status, behind, .. } => settled(b, e.end, status, behind, e.tick),
    }
}

// Whether something comes behind an event.
fn goes_on(item: Item) -> bool
    ensures { result ≡ goes_on item }
{
    !matches!(item, Item::Bad | Item::End)
}

// Where a track has come to its end: the place of its fault, or none.
fn flaw_at(e: Entry) -> Option<u32>
    ensures { result ≡ flaw_at e }
{
    if is_bad(e.item) {
        return Some(e.place);
    }
    None
}

// A track's first fault. No index counts its events: each says where the next one begins.
pub fn flaw(b: &[u8], e: Entry) -> Option<u32>
    requires { Settled b.now e }
    ensures { result ≡ flaw_from (turns b.now) b.now e }
{
    let mut x = e;
    let mut item = e.item;
    while goes_on(item) {
        x = advanced(b, x);
        item = x.item;
    }
    flaw_at(x)
}
