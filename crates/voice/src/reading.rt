// The reading at a place of the window.
ghost use Rattle.std.specs.Prelude.{◌≡◌, ◌<◌, ◌+ℤ◌, ◌-ℤ◌};
ghost use Rattle.arith.specs.Floors.{floor_z};
ghost use Rattle.arith.specs.Within.{Within};
ghost use Rattle.voice.specs.Internal.Reading.{risen};
ghost use Rattle.voice.specs.Reading.{sample, before, behind, interpolated, reading};

use arith::hold;

// The sample at i of the window, 0 behind its last.
fn sample_at(w: &[i16], i: usize) -> i16
    ensures { result ≡ sample w.now i }
{
    if i < w.len() { w[i] } else { 0 }
}

// The sample behind sample i.
fn behind_at(folding: bool, from: u32, to: u32, i: usize) -> usize
    requires { i < 2199023255552 }
    ensures { result ≡ behind folding from to i }
{
    if !folding {
        return i + 1;
    }
    if i + 1 == (to as usize) {
        return from as usize;
    }
    i + 1
}

// The sample before sample i, 0 before the window's first.
fn before_at(w: &[i16], i: usize) -> i16
    ensures { result ≡ before w.now i }
{
    if i == 0 { 0 } else { sample_at(w, i - 1) }
}

// The sum of the four points over 2 * 4,096^3. The whole of x1 stands outside; the rest goes by the differences and by Horner's rule.
fn curved(x0: i64, x1: i64, x2: i64, x3: i64, q: i64) -> i64
    requires points { Within x0 32768 × Within x1 32768 × Within x2 32768 × Within x3 32768 }
    requires part { Within q 4096 }
    ensures { (result ≡ x1 +ℤ floor_z (risen (x1 -ℤ x0) (x2 -ℤ x1) (x3 -ℤ x2) q) 137438953472) × Within result 1099511627776 }
{
    let a = x1 - x0;
    let b = x2 - x1;
    let c = x3 - x2;
    let three = c - b - (b - a);
    let two = b - a - three;
    x1 + ((((three * q + two * 4096) * q + (a + b) * 16777216) * q) >> 37)
}

// The reading between x1 and x2, q in 2^-12 of the way.
pub fn reading_of(x0: i16, x1: i16, x2: i16, x3: i16, q: u32) -> i64
    requires { q < 4096 }
    ensures { (result ≡ interpolated x0 x1 x2 x3 q) × Within result 32768 }
{
    let x = curved(x0 as i64, x1 as i64, x2 as i64, x3 as i64, q as i64);
    hold(-32768, 32767, x)
}

// The reading at a place.
pub fn read(folding: bool, from: u32, to: u32, w: &[i16], place: u64) -> i64
    ensures { (result ≡ reading folding from to w.now place) × Within result 32768 }
{
    let i = (place / 16777216) as usize;
    let q = (place % 16777216 / 4096) as u32;
    let j = behind_at(folding, from, to, i);
    let k = behind_at(folding, from, to, j);
    let x0 = before_at(w, i);
    let x1 = sample_at(w, i);
    let x2 = sample_at(w, j);
    let x3 = sample_at(w, k);
    reading_of(x0, x1, x2, x3, q)
}
