// The nine sub-chunks: where each begins and how many records it has.
ghost use Rattle.std.specs.Prelude.{◌≡◌, ◌<◌, ◌≤◌, get_or};
ghost use Rattle.records.specs.Chunks.{sizes, chunk_at, records, body};

use arith::u32_at;

// The sizes of the records of the nine chunks.
const SIZES: [u32; 9] = [38, 4, 10, 4, 22, 4, 10, 4, 46];

// The size of a record of chunk k.
pub fn size(k: usize) -> u32
    requires { k < 9 }
    ensures { (result ≡ get_or sizes k 0) × (0 < result) }
{
    SIZES[k]
}

// Where chunk k begins.
pub fn chunk_at(b: &[u8], k: usize) -> usize
    requires { k ≤ 9 }
    ensures { (result ≡ chunk_at b.now k) × (result ≤ 38654705727) }
{
    let mut at: usize = 0;
    for n in 0..k {
        at = at + 8 + (u32_at(b, at + 4) as usize);
    }
    at
}

// The number of records of chunk k.
pub fn records_in(b: &[u8], k: usize) -> u32
    requires { k < 9 }
    ensures { result ≡ records b.now k }
{
    u32_at(b, chunk_at(b, k) + 4) / size(k)
}

// Where the body of chunk k begins, in a bank whose chunks end within 65,536 bytes.
pub fn body(b: &[u8], k: usize) -> u32
    requires { (k < 9) × (chunk_at b.now 9 ≤ 65536) }
    ensures { result ≡ body b.now k }
{
    (chunk_at(b, k) + 8) as u32
}
