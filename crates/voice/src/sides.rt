// Left and right: each side's share of a number, with no division in a frame.
ghost use Rattle.std.specs.Prelude.{◌≡◌, ◌≤◌, pos, nat_abs, ◌+ℤ◌, ◌-ℤ◌};
ghost use Rattle.arith.specs.Within.{Within};
ghost use Rattle.voice.specs.Sound.{pan_of};
ghost use Rattle.voice.specs.Internal.Sides.{left_out, right_out, share, part};
ghost use Rattle.voice.specs.Internal.Sums.{loudest};

use arith::hold;

// The shares of both sides, in 2^-38.
#[derive(Clone, Copy)]
pub struct Sides {
    pub left: u64,
    pub right: u64,
}

// The pan, held to -500..500.
fn pan_of(p: i16) -> i64
    ensures { (result ≡ pan_of p) × Within result 500 }
{
    hold(-500, 500, p as i64)
}

// k thousandths, rounded up.
fn share_of(k: u64) -> u64
    requires { k ≤ 1000 }
    ensures { (result ≡ share k) × (result ≤ 274877906944) }
{
    (k * 274877906944 + 999) / 1000
}

// The thousandths of both sides.
fn outs(q: i64) -> Sides
    requires { Within q 500 }
    ensures { (result.left ≡ nat_abs (pos 500 -ℤ q)) × (result.left ≤ 1000) × (result.right ≡ nat_abs (pos 500 +ℤ q)) × (result.right ≤ 1000) }
{
    Sides {
        left: (500 - q) as u64,
        right: (500 + q) as u64,
    }
}

// Both sides at a pan.
pub fn sides_of(p: i16) -> Sides
    ensures { (result.left ≡ share (left_out p)) × (result.left ≤ 274877906944) × (result.right ≡ share (right_out p)) × (result.right ≤ 274877906944) }
{
    let k = outs(pan_of(p));
    let a = share_of(k.left);
    let b = share_of(k.right);
    Sides { left: a, right: b }
}

// A share of u, rounded down.
pub fn part_of(u: i64, share: u64) -> i32
    requires { Within u 8388610 × (share ≤ 274877906944) }
    ensures { (result ≡ part u share) × Within result loudest }
{
    ((u * (share as i64) + 16777216) >> 38) as i32
}
