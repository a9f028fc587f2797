// Which slot a layer takes, and the order of age.
ghost use Rattle.std.specs.Prelude.{◌≡◌, cond, map, ◌<◌, ltb, get_or};
ghost use Rattle.state.specs.Seats.{order_of, claim, taken, seat, renewed, start_in};
ghost use Rattle.state.specs.Internal.Seats.{as_slot, first_at};

use crate::Engine;
use crate::slots::slot_of;
use arith::{has, insert, lowest_clear};
use voice::{Voice, is_released};

// How soon slot i is taken, lower first: released voices, then by struck velocity; last those of this note-on.
fn claim_of(e: Engine, mine: u32, i: usize) -> u32
    requires { i < 32 }
    ensures { result ≡ claim e mine i }
{
    if has(mine, i as u32) {
        return 512;
    }
    let s = slot_of(e, i);
    let v = s.voice;
    let g = v.stage;
    if is_released(g) {
        return v.velocity as u32;
    }
    256 + (v.velocity as u32)
}

// The slot at place k of the order.
fn aged(e: Engine, k: usize) -> usize
    requires { k < 32 }
    ensures { (result ≡ get_or (order_of e) k 0) × (result < 32) }
{
    (e.order[k] % 32) as usize
}

// The one that is taken first of slot x and the one before it, b.
fn sooner(e: Engine, mine: u32, x: usize, b: usize) -> usize
    requires { (x < 32) × (b < 32) }
    ensures { (result ≡ cond (ltb (claim e mine x) (claim e mine b)) x b) × (result < 32) }
{
    let new = claim_of(e, mine, x);
    let old = claim_of(e, mine, b);
    if new < old { x } else { b }
}

// The slot to take where none is free.
fn taken_slot(e: Engine, mine: u32) -> usize
    ensures { (result ≡ taken e mine) × (result < 32) }
{
    let mut b = aged(e, 0);
    for k in 0..32 {
        let x = aged(e, k);
        b = sooner(e, mine, x, b);
    }
    b
}

// The slot for the next layer: the lowest that is free, else one that is taken.
pub fn seat_of(e: Engine, mine: u32) -> usize
    ensures { (result ≡ seat e mine) × (result < 32) }
{
    let i = lowest_clear(e.sounding) as usize;
    if i < 32 {
        return i;
    }
    taken_slot(e, mine)
}

// Where slot i first stands in the order; 32 where it does not.
fn place_of(order: [u8; 32], i: u8) -> usize
    ensures { result ≡ first_at i (map as_slot order) }
{
    for k in 0..32 {
        if order[k] % 32 == i {
            return k;
        }
    }
    32
}

// Place k of the order in which slot i, which stood at p, is behind all others.
fn shifted(order: [u8; 32], i: u8, p: usize, k: usize) -> u8
    requires { (k < 32) × (p ≡ first_at i (map as_slot order)) }
    ensures { result ≡ get_or (renewed i (map as_slot order)) k 0 }
{
    if k < p {
        return order[k] % 32;
    }
    if k == 31 {
        return i;
    }
    order[k + 1] % 32
}

// Slot i moved behind all others: it is the newest.
fn renewed_order(order: [u8; 32], i: u8) -> [u8; 32]
    ensures { result ≡ renewed i (map as_slot order) }
{
    let p = place_of(order, i);
    let mut out = order;
    for k in 0..32 {
        out[k] = shifted(order, i, p, k);
    }
    out
}

// A voice started in slot i.
pub fn start_in(e: Engine, i: usize, v: Voice) -> Engine
    requires { i < 32 }
    ensures { result ≡ start_in i v e }
{
    let old = e.order;
    let new = renewed_order(old, i as u8);
    let mut x = e;
    x.voices[i] = v;
    x.sounding = insert(e.sounding, i as u32);
    x.order = new;
    x
}
