// A word as a set of slots, a bit for each (01, "Slots, keys and the clock").
ghost use Rattle.std.specs.Prelude.{◌≡◌, ◌^◌, ◌<◌, ◌≤◌, eqb};
ghost use Rattle.std.specs.Int.Bits.{bit_or};
ghost use Rattle.std.specs.Int.Count.{ones};
ghost use Rattle.arith.specs.Words.{bit};
ghost use Rattle.arith.specs.Internal.Words.{With, lowest_clear};

// Whether a slot is in the set.
pub fn has(word: u32, slot: u32) -> bool
    requires { slot < 32 }
    ensures { result ≡ eqb (bit word slot) 1 }
{
    (word >> slot) % 2 == 1
}

// The set with a slot, whether it is in it before or not.
pub fn insert(word: u32, slot: u32) -> u32
    requires { slot < 32 }
    ensures { (result ≡ bit_or word (2 ^ slot)) × With word slot 1 result }
{
    word | (1 << slot)
}

// The lowest slot that is not in the set, and 32 where all are.
pub fn lowest_clear(word: u32) -> u32
    ensures { result ≡ lowest_clear 32 word }
{
    u32::trailing_zeros(!word)
}

// How many slots are in the set.
pub fn count(word: u32) -> u32
    ensures { (result ≡ ones word) × (result ≤ 32) }
{
    u32::count_ones(word)
}
