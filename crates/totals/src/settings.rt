// What a starting voice gets of its layer's values (01, "From a key to layers" and "Tables and steps").
ghost use Rattle.std.specs.Prelude.{◌≡◌, ◌<◌, pos, negsuc, nat_abs, ◌+ℤ◌, ◌-ℤ◌, ◌*ℤ◌};
ghost use Rattle.arith.specs.Within.{Within};
ghost use Rattle.arith.specs.Holds.{held_to};
ghost use Rattle.arith.specs.Floors.{mod_z};
ghost use Rattle.totals.specs.Internal.Values.{total_in};
ghost use Rattle.records.specs.Internal.Amounts.{at};
ghost use Rattle.totals.specs.Settings.{if_midi, key_of, root_of, pitch_of, softness, attenuation_of};

use crate::LayerValues;

// x if low..127, else the other.
fn if_midi(low: u8, x: i16, other: u8) -> u8
    ensures { result ≡ if_midi low x other }
{
    if x < (low as i16) {
        return other;
    }
    if 127 < x {
        return other;
    }
    x as u8
}

// (k - r) * scale + 100 * coarse + fine + correction
fn tune(k: u8, r: u8, scale: i64, coarse: i64, fine: i64, correction: i8) -> i32
    requires { Within scale 1200 × Within coarse 1200 × Within fine 1200 }
    ensures { result ≡ (pos k -ℤ pos r) *ℤ scale +ℤ pos 100 *ℤ coarse +ℤ fine +ℤ correction }
{
    let steps = i64::from(k) - i64::from(r);
    (steps * scale + 100 * coarse + fine + i64::from(correction)) as i32
}

// t + (60 - k) * by
fn shift(t: i64, k: u8, by: i64) -> i32
    requires { Within t 65536 × Within by 1200 }
    ensures { result ≡ t +ℤ (pos 60 -ℤ pos k) *ℤ by }
{
    (t + (60 - i64::from(k)) * by) as i32
}

// An attenuation and a velocity's part added.
fn plus(a: i64, v: u16) -> i32
    requires { Within a 65536 }
    ensures { result ≡ a +ℤ pos v }
{
    (a + i64::from(v)) as i32
}

impl LayerValues {
    // Key: generator 46 if 0..127, else the struck key.
    fn key_of(&self, key: u8) -> u8
        ensures { result ≡ key_of (total_in self.now.own self.now.added) key }
    {
        if_midi(0, self.own[46], key)
    }

    // Root: generator 58 if 0..127, else the header's, else 60 where that exceeds 127.
    fn root_of(&self, header: u8) -> u8
        ensures { result ≡ root_of (total_in self.now.own self.now.added) header }
    {
        let other = if header <= 127 { header } else { 60 };
        if_midi(0, self.own[58], other)
    }

    // The pitch total without the bend.
    pub fn pitch_of(&self, key: u8, header: u8, correction: i8) -> i32
        ensures { result ≡ pitch_of (total_in self.now.own self.now.added) key header correction }
    {
        let k = self.key_of(key);
        let r = self.root_of(header);
        let scale = self.held_at(56, 0, 1200);
        let coarse = self.held_at(51, -120, 120);
        let fine = self.held_at(52, -99, 99);
        tune(k, r, scale, coarse, fine, correction)
    }

    // A time as the zones have it, in timecents.
    pub fn time_of(&self, g: usize) -> i32
        requires { g < 61 }
        ensures { result ≡ at self.now.own g +ℤ at self.now.added g }
    {
        self.sum_at(g) as i32
    }

    // The time of hold (35 by 39) or decay (36 by 40), with the key's part.
    pub fn keyed_time(&self, key: u8, g: usize, by: usize) -> i32
        requires { (g < 61) × (by < 61) }
        ensures { result ≡ (at self.now.own g +ℤ at self.now.added g) +ℤ (pos 60 -ℤ pos (key_of (total_in self.now.own self.now.added) key)) *ℤ held_to (negsuc 1199) (pos 1200) (at self.now.own by +ℤ at self.now.added by) }
    {
        let t = self.sum_at(g);
        let part = self.held_at(by, -1200, 1200);
        shift(t, self.key_of(key), part)
    }

    // The velocity that attenuates: generator 47, if 1..127, else the struck one.
    fn soft_of(&self, velocity: u8) -> u8
        ensures { result ≡ softness (total_in self.now.own self.now.added) velocity }
    {
        if_midi(1, self.own[47], velocity)
    }

    // Generator 48's total and velocity, in cB.
    pub fn attenuation_of(&self, velocity: u8) -> i32
        ensures { result ≡ attenuation_of (total_in self.now.own self.now.added) velocity }
    {
        let v = curves::cb_of(self.soft_of(velocity));
        plus(self.sum_at(48), v)
    }

    // Generator 37's total, in cB.
    pub fn sustain_of(&self) -> u16
        ensures { result ≡ nat_abs (total_in self.now.own self.now.added 37) }
    {
        self.held_at(37, 0, 1000) as u16
    }

    // Generator 17's total.
    pub fn pan_of(&self) -> i16
        ensures { result ≡ total_in self.now.own self.now.added 17 }
    {
        self.held_at(17, -500, 500) as i16
    }

    // Generator 57 of the instrument, as 16 bits: the exclusive class.
    pub fn class_of(&self) -> u16
        ensures { result ≡ mod_z (at self.now.own 57) 65536 }
    {
        self.own[57].cast_unsigned()
    }
}
