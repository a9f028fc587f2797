// An output number k/2^23 to its 16-bit number, by the bits of its binary32.
ghost use Rattle.std.specs.Prelude.{◌≡◌, T, nat_abs, ◌≤◌};
ghost use Rattle.arith.specs.Floors.{mod_z};
ghost use Rattle.arith.specs.Within.{Within};
ghost use Rattle.wave.specs.Pcm.{is_output, pcm_of, pcm_of_k};
ghost use Rattle.wave.specs.Internal.Pcm.{is_output_bits, k_bits, word_of};

// Whether bits without a sign are those of a whole k/2^23, at most 1.
fn is_output_bits(size: u32) -> bool
    ensures { result ≡ is_output_bits size }
{
    if size == 0 {
        return true;
    }
    if 1065353216 < size {
        return false;
    }
    let field = size / 8388608;
    if field < 104 {
        return false;
    }
    let digits = 8388608 + size % 8388608;
    let tail = 127 - field;
    digits >> tail << tail == digits
}

// The k of such bits.
fn k_of_bits(size: u32) -> u32
    requires { T (is_output_bits size) }
    ensures value { result ≡ k_bits size }
    ensures bounded { result ≤ 8388608 }
{
    if size == 0 {
        return 0;
    }
    let digits = 8388608 + size % 8388608;
    let tail = 127 - size / 8388608;
    digits >> tail
}

// floor(k/256) in two's complement, at most 32,767, of a k with its sign apart.
fn word_of(negative: bool, k: u32) -> u16
    requires { k ≤ 8388608 }
    ensures { result ≡ word_of negative k }
{
    if negative {
        return ((65536 - (k + 255) / 256) % 65536) as u16;
    }
    if 8388352 < k {
        return 32767;
    }
    (k / 256) as u16
}

// How far a number is from 0.
pub fn size(z: i32) -> u32
    ensures { result ≡ nat_abs z }
{
    z.unsigned_abs()
}

// The 16-bit number of a k, in two's complement.
pub fn word(k: i32) -> u16
    requires { Within k 8388608 }
    ensures { result ≡ mod_z (pcm_of_k k) 65536 }
{
    word_of(k < 0, size(k))
}

// Whether a number is a whole k/2^23 in -1..1.
pub fn is_output(x: f32) -> bool
    ensures { result ≡ is_output x }
{
    if x.is_nan() {
        return false;
    }
    is_output_bits(f32::to_bits(x) % 2147483648)
}

// The 16-bit number of an output number, in two's complement.
pub fn pcm(x: f32) -> u16
    requires { T (is_output x) }
    ensures { result ≡ mod_z (pcm_of x) 65536 }
{
    let bits = f32::to_bits(x);
    word_of(2147483648 <= bits, k_of_bits(bits % 2147483648))
}
