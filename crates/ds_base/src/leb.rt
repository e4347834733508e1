//! LEB numbers (DWARF 4, section 7.6): the value of a spelling, the length of the shortest one, and
//! the laws above both.

ghost use Rattle.std.specs.Prelude.{◌≡◌, ◌<◌, ◌≤◌, ◌^◌, ◌++◌, ℕ, ℤ, List as Listed, length, SomeIff, IsTrue, Ok, false};
ghost use Rattle.ds_base.specs.declared.fault.Part.{Part};
ghost use Rattle.ds_base.specs.Leb.{digit, digits_value, sleb_value, fits_i64, leb_digits, uleb, uleb_len_of, sleb, sleb_len_of, IsShortestUleb, IsShortestSleb};
ghost use Rattle.ds_base.specs.Spot.{start, after};
ghost use Rattle.ds_base.specs.Reading.{uleb_at, sleb_at};

/// The bit of a last byte that makes a signed number negative.
const SIGN: u8 = 64;

/// The length of the shortest spelling of `n`, in bytes: 1 to 10.
pub fn uleb_len(n: u64) -> u64
    ensures is { result ≡ uleb_len_of n }
    ensures few { result ≤ 10 }
    ensures some { 0 < result }
{
    match n {
        0..=0x7f => 1,
        0x80..=0x3fff => 2,
        0x4000..=0x1f_ffff => 3,
        0x20_0000..=0xfff_ffff => 4,
        0x1000_0000..=0x7_ffff_ffff => 5,
        0x8_0000_0000..=0x3ff_ffff_ffff => 6,
        0x400_0000_0000..=0x1_ffff_ffff_ffff => 7,
        0x2_0000_0000_0000..=0xff_ffff_ffff_ffff => 8,
        0x100_0000_0000_0000..=0x7fff_ffff_ffff_ffff => 9,
        _ => 10,
    }
}

/// The length of the shortest spelling of `n` with a sign, in bytes: 1 to 10.
pub fn sleb_len(n: i64) -> u64
    ensures is { result ≡ sleb_len_of n }
    ensures few { result ≤ 10 }
    ensures some { 0 < result }
{
    if n < 0 {
        uleb_len(2 * (-1 - n) as u64)
    } else {
        uleb_len(2 * n as u64)
    }
}

/// What is written as the shortest LEB number without a sign is read back, whatever follows it.
pub fn uleb_reads_back()
    ensures { (n : ℕ) (part : Part) (more : Listed ℕ) → n < 2 ^ 64 →
        uleb_at (start part (uleb n ++ more)) ≡ Ok (n, after (start part (uleb n ++ more)) (uleb_len_of n)) }
{}

/// What is written in four padded bytes means the number, and is read back, whatever follows it.
pub fn uleb4_reads_back()
    ensures value { (n : ℕ) → n < 2 ^ 28 → digits_value false (leb_digits false 4 n) ≡ n }
    ensures read { (n : ℕ) (part : Part) (more : Listed ℕ) → n < 2 ^ 28 →
        uleb_at (start part (leb_digits false 4 n ++ more)) ≡ Ok (n, after (start part (leb_digits false 4 n ++ more)) 4) }
{}

/// What is written as the shortest LEB number with a sign is read back, whatever follows it.
pub fn sleb_reads_back()
    ensures { (z : ℤ) (part : Part) (more : Listed ℕ) → IsTrue (fits_i64 z) →
        sleb_at (start part (sleb z ++ more)) ≡ Ok (z, after (start part (sleb z ++ more)) (sleb_len_of z)) }
{}

/// No spelling of a number without a sign is shorter than the one that is written.
pub fn uleb_is_shortest()
    ensures { (n : ℕ) → n < 2 ^ 64 → IsShortestUleb n (uleb n) }
{}

/// No spelling of a number with a sign is shorter than the one that is written.
pub fn sleb_is_shortest()
    ensures { (z : ℤ) → IsTrue (fits_i64 z) → IsShortestSleb z (sleb z) }
{}

/// The sum of a spelling's digits, or of their complements, where it fits 64 bits.
pub(crate) fn value_of(bytes: &[u8], flip: bool) -> Option<u64>
    ensures { SomeIff result (digits_value flip bytes.now < 2 ^ 64) (digits_value flip bytes.now) }
{
    let mut value: u64 = 0;
    let mut i = bytes.len();
    while i > 0 {
        i -= 1;
        if value >= 1 << 57 {
            return None;
        }
        value = value * 128 + digit_of(u64::from(bytes[i]), flip);
    }
    Some(value)
}

/// What a spelling means as two's complement, where it fits 64 bits.
pub(crate) fn signed_value_of(bytes: &[u8]) -> Option<i64>
    requires { 0 < length bytes.now }
    ensures { SomeIff result (IsTrue (fits_i64 (sleb_value bytes.now))) (sleb_value bytes.now) }
{
    if bytes[bytes.len() - 1] % 128 < SIGN {
        let value = value_of(bytes, false)?;
        i64::try_from(value).ok()
    } else {
        let below = value_of(bytes, true)?;
        let below = i64::try_from(below).ok()?;
        Some(-1 - below)
    }
}

/// The lowest seven bits of a number, or their complement.
pub(crate) fn digit_of(n: u64, flip: bool) -> u64
    ensures is { result ≡ digit flip n }
    ensures small { result < 128 }
{
    let low = n % 128;
    if flip { 127 - low } else { low }
}
