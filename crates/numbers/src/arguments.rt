// The arguments: of each list the single ones first, then those at even distances.
ghost use Rattle.std.specs.Prelude.{◌<◌};

const CENTS: [i32; 12] = [
    -9600, -9599, -1201, -1200, -1199, -1, 0, 1, 1199, 1200, 4799, 4800,
];

const RATES: [u16; 10] = [
    400, 401, 8000, 22050, 44099, 44100, 44101, 48000, 49999, 50000,
];

const TIMES: [i32; 22] = [
    -40000, -32769, -32768, -32767, -12001, -12000, -11999, -1201, -1200, -1199, -1, 0, 1, 1199,
    1200, 4999, 5000, 5001, 7999, 8000, 8001, 20000,
];

const LEVELS: [u32; 11] = [
    0, 1, 2, 166, 167, 168, 1677720, 1677721, 1677722, 16777215, 16777216,
];

const BENDS: [u16; 6] = [0, 1, 8191, 8192, 8193, 16383];

// The sample rates that are tried.
pub fn rate_at(i: usize) -> u16
    requires { i < 10 }
{
    RATES[i]
}

// From -9,600 to 4,800 by 97.
pub fn cents_at(i: usize) -> i32
    requires { i < 161 }
{
    if i < 12 {
        return CENTS[i];
    }
    ((i - 12) * 97) as i32 - 9600
}

// From -12,000 to 8,000 by 131.
pub fn time_at(i: usize) -> i32
    requires { i < 175 }
{
    if i < 22 {
        return TIMES[i];
    }
    ((i - 22) * 131) as i32 - 12000
}

// From 0 to 2^24 in 97 parts.
pub fn level_at(i: usize) -> u32
    requires { i < 109 }
{
    if i < 11 {
        return LEVELS[i];
    }
    ((i - 11) * 16777216 / 97) as u32
}

// From 0 to 16,383 by 41.
pub fn bend_at(i: usize) -> u16
    requires { i < 406 }
{
    if i < 6 {
        return BENDS[i];
    }
    ((i - 6) * 41) as u16
}
