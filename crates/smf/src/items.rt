// One event of the track behind its delta time, by its bytes.
ghost use Rattle.std.specs.Prelude.{◌≡◌, cond, ◌+◌, ◌≤◌};
ghost use Rattle.smf.specs.Items.{is_channel, is_short, is_exclusive, short_at, long_at, spoken_at, exclusive_at, meta_of, meta_at, item_at};

use crate::Item;
use crate::quantities::{quantity_at, three_at};

// A status of a channel event.
fn is_channel(status: u8) -> bool
    ensures { result ≡ is_channel status }
{
    128 <= status && status <= 239
}

// A status with one data byte.
pub fn is_short(status: u8) -> bool
    ensures { result ≡ is_short status }
{
    192 <= status && status <= 223
}

// A first byte of a system exclusive event.
fn is_exclusive(x: u8) -> bool
    ensures { result ≡ is_exclusive x }
{
    x == 240 || x == 247
}

// One data byte.
fn short_at(b: &[u8], edge: u32, status: u8, at: u32) -> Item
    ensures { result ≡ short_at b.now edge status at }
{
    if edge <= at {
        return Item::Bad;
    }
    let first = arith::byte(b, at as usize);
    if 127 < first {
        return Item::Bad;
    }
    Item::Channel {
        status,
        first,
        second: 0,
        behind: at + 1,
    }
}

// Two data bytes.
fn long_at(b: &[u8], edge: u32, status: u8, at: u32) -> Item
    ensures { result ≡ long_at b.now edge status at }
{
    if (edge as usize) < (at as usize) + 2 {
        return Item::Bad;
    }
    let first = arith::byte(b, at as usize);
    if 127 < first {
        return Item::Bad;
    }
    let second = arith::byte(b, (at + 1) as usize);
    if 127 < second {
        return Item::Bad;
    }
    Item::Channel {
        status,
        first,
        second,
        behind: at + 2,
    }
}

// A channel event of a status, whose data stands at a place.
fn spoken_at(b: &[u8], edge: u32, status: u8, at: u32) -> Item
    ensures { result ≡ spoken_at b.now edge status at }
{
    if is_short(status) {
        return short_at(b, edge, status, at);
    }
    long_at(b, edge, status, at)
}

// A system exclusive event, whose length stands at a place.
fn exclusive_at(b: &[u8], edge: u32, at: u32) -> Item
    ensures { result ≡ exclusive_at b.now edge at }
{
    let Some(q) = quantity_at(b, edge, at) else {
        return Item::Bad;
    };
    if (edge as usize) < (q.behind as usize) + (q.value as usize) {
        return Item::Bad;
    }
    Item::Passed {
        behind: q.behind + q.value,
    }
}

// A meta event of a type, with n bytes at a place.
fn meta_of(b: &[u8], kind: u8, n: u32, at: u32) -> Item
    requires { at + n ≤ 4294967295 }
    ensures { result ≡ meta_of b.now kind n at }
{
    if kind == 47 {
        return Item::End;
    }
    if kind != 81 {
        return Item::Passed { behind: at + n };
    }
    if n < 3 {
        return Item::Bad;
    }
    Item::Tempo {
        tempo: three_at(b, at as usize),
        behind: at + n,
    }
}

// A meta event, whose type stands at a place.
fn meta_at(b: &[u8], edge: u32, at: u32) -> Item
    requires { at ≤ edge }
    ensures { result ≡ meta_at b.now edge at }
{
    if at == edge {
        return Item::Bad;
    }
    let kind = arith::byte(b, at as usize);
    let Some(q) = quantity_at(b, edge, at + 1) else {
        return Item::Bad;
    };
    if 127 < kind {
        return Item::Bad;
    }
    if (edge as usize) < (q.behind as usize) + (q.value as usize) {
        return Item::Bad;
    }
    meta_of(b, kind, q.value, q.behind)
}

// The event at a place, by its first byte.
pub fn item_at(b: &[u8], edge: u32, running: u8, at: u32) -> Item
    ensures { result ≡ item_at b.now edge running at }
{
    if edge <= at {
        return Item::Bad;
    }
    let x = arith::byte(b, at as usize);
    if x < 128 {
        return running_at(b, edge, running, at);
    }
    if x < 240 {
        return spoken_at(b, edge, x, at + 1);
    }
    if x == 255 {
        return meta_at(b, edge, at + 1);
    }
    if is_exclusive(x) {
        return exclusive_at(b, edge, at + 1);
    }
    Item::Bad
}

// A data byte where a status runs.
fn running_at(b: &[u8], edge: u32, running: u8, at: u32) -> Item
    ensures { result ≡ cond (is_channel running) (spoken_at b.now edge running at) Item.Bad }
{
    if is_channel(running) {
        return spoken_at(b, edge, running, at);
    }
    Item::Bad
}
