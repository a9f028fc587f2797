// Where a voice reads its sample, and how fast (01, "Bank admission" and "From a key to layers").
ghost use Rattle.std.specs.Prelude.{◌≡◌, ◌<◌, min};
ghost use Rattle.arith.specs.Holds.{word32};
ghost use Rattle.records.specs.Internal.Amounts.{at};
ghost use Rattle.totals.specs.Settings.{play_mode};
ghost use Rattle.layers.specs.Extent.{extent_of};

use arith::hold;
use records::Parts;

// A window of the ROM or of the RAM, its mode as it is played, its loop counted from its start, and the sample's rate.
#[derive(Clone, Copy)]
pub struct Extent {
    pub rom: bool,
    pub start: u32,
    pub end: u32,
    pub mode: u8,
    pub loopfrom: u32,
    pub loopto: u32,
    pub rate: u16,
}

// A place held to 32 bits, which changes none of an admitted bank's that counts.
fn word(x: i64) -> u32
    ensures { result ≡ word32 x }
{
    hold(0, 4294967295, x) as u32
}

// The mode as it is played: 2 counts as 0.
fn play(mode: u64) -> u8
    requires { mode < 4 }
    ensures { result ≡ play_mode mode }
{
    if mode == 2 {
        return 0;
    }
    mode as u8
}

// A rate held to 16 bits, which changes none of an admitted bank's.
fn rate16(rate: u32) -> u16
    ensures { result ≡ min 65535 rate }
{
    rate.min(65535) as u16
}

// The extent of sample k with the values v.
pub fn extent_of(b: &[u8], m: Parts, k: u32, v: &[i16; 61]) -> Extent
    ensures { result ≡ extent_of b.now m k (at v.now) }
{
    let start = word(records::start_of(b, m, k, v));
    let end = word(records::end_of(b, m, k, v));
    let from = word(records::loop_start_of(b, m, k, v));
    let to = word(records::loop_end_of(b, m, k, v));
    Extent {
        rom: records::rom_of(b, m, k),
        start,
        end,
        mode: play(records::mode_of(v)),
        loopfrom: from.saturating_sub(start),
        loopto: to.saturating_sub(start),
        rate: rate16(records::rate_of(b, m, k)),
    }
}
