// Bytes that are put down in a lent output, one behind the other.
ghost use Rattle.std.specs.Prelude.{true, ◌++◌, ◌∷◌, [], ◌≡◌, ◌+◌, ◌<◌, ◌≤◌, length};
ghost use Rattle.smf.specs.Spelling.{quantity_bytes, three_bytes};
ghost use Rattle.merge.specs.Internal.Lines.{laid_over, bridge_bytes, gap_bytes};

use crate::bridges::{bridges, rest};

// Some bytes from a place on, and the place behind them.
pub fn put(out: &mut [u8], at: usize, bytes: &[u8]) -> usize
    requires { at + length bytes.now ≤ length out.old }
    ensures value { result ≡ at + length bytes.now }
    ensures output { out.new ≡ laid_over out.old at bytes.now }
{
    let end = at + bytes.len();
    out[at..end].copy_from_slice(bytes);
    end
}

// A delta time.
pub fn put_quantity(out: &mut [u8], at: usize, n: u32) -> usize
    requires { (at + length (quantity_bytes n) ≤ length out.old) × (n < 268435456) }
    ensures value { result ≡ at + length (quantity_bytes n) }
    ensures output { out.new ≡ laid_over out.old at (quantity_bytes n) }
{
    if n < 128 {
        let one = [n as u8];
        return put(out, at, &one);
    }
    if n < 16384 {
        let two = [(128 + n / 128) as u8, (n % 128) as u8];
        return put(out, at, &two);
    }
    if n < 2097152 {
        let three = [
            (128 + n / 16384) as u8,
            (128 + n / 128 % 128) as u8,
            (n % 128) as u8,
        ];
        return put(out, at, &three);
    }
    let four = [
        (128 + n / 2097152) as u8,
        (128 + n / 16384 % 128) as u8,
        (128 + n / 128 % 128) as u8,
        (n % 128) as u8,
    ];
    put(out, at, &four)
}

// A tempo change.
pub fn put_tempo(out: &mut [u8], at: usize, tempo: u32) -> usize
    requires { at + 6 ≤ length out.old }
    ensures value { result ≡ at + 6 }
    ensures output { out.new ≡ laid_over out.old at (255 ∷ 81 ∷ 3 ∷ three_bytes tempo) }
{
    let six = [
        255,
        81,
        3,
        (tempo / 65536 % 256) as u8,
        (tempo / 256 % 256) as u8,
        (tempo % 256) as u8,
    ];
    put(out, at, &six)
}

// So many bridges.
fn put_bridges(out: &mut [u8], at: usize, tempo: u32, n: u64) -> usize
    requires { at + length (bridge_bytes tempo n) ≤ length out.old }
    ensures value { result ≡ at + length (bridge_bytes tempo n) }
    ensures output { out.new ≡ laid_over out.old at (bridge_bytes tempo n) }
{
    let mut p = at;
    for k in 0..n {
        p = put_quantity(out, p, 268435455);
        p = put_tempo(out, p, tempo);
    }
    p
}

// A gap: its bridges, and its delta time.
pub fn put_gap(out: &mut [u8], at: usize, tempo: u32, ticks: u64) -> usize
    requires { at + length (gap_bytes tempo ticks) ≤ length out.old }
    ensures value { result ≡ at + length (gap_bytes tempo ticks) }
    ensures output { out.new ≡ laid_over out.old at (gap_bytes tempo ticks) }
{
    let p = put_bridges(out, at, tempo, bridges(ticks));
    put_quantity(out, p, rest(ticks))
}
