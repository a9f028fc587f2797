// Gaps that no delta time says.
ghost use Rattle.std.specs.Prelude.{◌≡◌, ◌<◌, ◌≤◌};
ghost use Rattle.merge.specs.Bridges.{bridges_of, rest_of};

// The most that a delta time says.
pub const LONGEST: u64 = 268435455;

// How many bridges a gap needs.
pub fn bridges(gap: u64) -> u64
    ensures { (result ≡ bridges_of gap) × (result ≤ 68719476992) }
{
    if gap == 0 {
        return 0;
    }
    (gap - 1) / LONGEST
}

// What is left of it.
pub fn rest(gap: u64) -> u32
    ensures { (result ≡ rest_of gap) × (result < 268435456) }
{
    (gap - bridges(gap) * LONGEST) as u32
}
