// The FNV-1a hash of 64 bits over bytes, over the bits of binary32 numbers and over those of samples.
ghost use Rattle.std.specs.Prelude.{◌≡◌, ℕ, List, refl};
ghost use Rattle.arith.specs.Floors.{mod_z};
ghost use Rattle.cases.specs.Internal.Hash.{bits_of, hash_all, hash_bits, hash_byte, hash_bytes, hash_each, hash_number, hash_sample, hash_samples, times as Hash·times};

// A number's 32 bits, the quiet pattern for a NaN.
pub fn bits_of(x: f32) -> u32
    ensures { result ≡ bits_of x }
{
    if x != x { 2143289344 } else { f32::to_bits(x) }
}

// The product with the hash's prime, 2^40 + 435. The low and the high half are taken by themselves, since 435 times either fits.
fn times(h: u64) -> u64
    ensures { result ≡ Hash·times h }
{
    let low = (h % 4294967296) * 435;
    let high = (h / 4294967296) * 435;
    let small = std::num::wrapping_add_u64(low, high << 32);
    std::num::wrapping_add_u64(h << 40, small)
}

// One byte more in the hash.
fn hash_byte(h: u64, b: u64) -> u64
    ensures { result ≡ hash_byte h b }
{
    times(h ^ b)
}

// The four bytes of a number's bits, the low one first.
fn hash_bits(h: u64, n: u32) -> u64
    ensures { result ≡ hash_bits h n }
{
    let w = u64::from(n);
    let h1 = hash_byte(h, w % 256);
    let h2 = hash_byte(h1, w / 256 % 256);
    let h3 = hash_byte(h2, w / 65536 % 256);
    hash_byte(h3, w / 16777216)
}

// A sample's 16 bits, in two's complement.
fn sample_bits(s: i16) -> u64
    ensures { result ≡ mod_z s 65536 }
{
    u64::from(s.cast_unsigned())
}

// The two bytes of a sample, the low one first.
fn hash_sample(h: u64, s: i16) -> u64
    ensures { result ≡ hash_sample h s }
{
    let n = sample_bits(s);
    let low = hash_byte(h, n % 256);
    hash_byte(low, n / 256)
}

// What can be hashed.
pub trait Hashed: Copy {
    // the hash after one more
    ghost after: { ℕ → Self → ℕ };

    // the hash after all of a list more
    ghost after_all: { ℕ → List Self → ℕ };

    fn into_hash(self, h: u64) -> u64
        ensures { result ≡ after h self };

    // one after the other
    ghost in_order: { (h : ℕ) (xs : List Self) → after_all h xs ≡ hash_each after h xs };
}

impl Hashed for f32 {
    ghost after = { hash_number };

    ghost after_all = { hash_all };

    ghost in_order = { λ h xs. refl };

    fn into_hash(self, h: u64) -> u64 {
        hash_bits(h, bits_of(self))
    }
}

impl Hashed for u8 {
    ghost after = { hash_byte };

    ghost after_all = { hash_bytes };

    ghost in_order = { λ h xs. refl };

    fn into_hash(self, h: u64) -> u64 {
        hash_byte(h, u64::from(self))
    }
}

impl Hashed for i16 {
    ghost after = { hash_sample };

    ghost after_all = { hash_samples };

    ghost in_order = { λ h xs. refl };

    fn into_hash(self, h: u64) -> u64 {
        hash_sample(h, self)
    }
}

// The hash over all of the numbers, the bytes or the samples.
pub fn fnv<T: Hashed>(items: &[T]) -> u64
    ensures { result ≡ T.after_all 14695981039346656037 items.now }
{
    let mut h: u64 = 14695981039346656037;
    for x in items {
        h = x.into_hash(h);
    }
    h
}
