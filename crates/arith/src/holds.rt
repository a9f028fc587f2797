// A number held to a range, a difference held at 0, and the lesser of two numbers.
ghost use Rattle.std.specs.Prelude.{◌≡◌, ◌-◌, min};
ghost use Rattle.arith.specs.Holds.{held_to};

// x, brought to the nearest end of low..high where it is past it.
pub fn hold(low: i64, high: i64, x: i64) -> i64
    ensures { result ≡ held_to low high x }
{
    if x < low {
        return low;
    }
    if high < x {
        return high;
    }
    x
}

// high - low; 0 where low is above it.
pub fn less(high: u32, low: u32) -> u32
    ensures { result ≡ high - low }
{
    if low < high {
        return high - low;
    }
    0
}

// The lesser of two.
pub fn least(a: u64, b: u64) -> u64
    ensures { result ≡ min a b }
{
    if a < b { a } else { b }
}
