// Words of eight bytes, the first one lowest: reading one out of a slice, and marking the bytes in it that equal a given one.
ghost use Rattle.std.specs.Prelude.{◌≡◌, ◌+◌, ◌/◌, ◌<◌, ◌≤◌, nat_le, length, count_ones};
ghost use Rattle.std.specs.Int.Count.{count_trailing_zeros};
ghost use Rattle.lines.specs.Search.{count_of};
ghost use Rattle.definitions.specs.Lists.{among};
ghost use Rattle.lines.specs.Words.{half_word_at, word_at, bytes_of_word, first_in, first_outside};

// In each byte: a one, a sixteen, the seven low bits, the high bit.
const LO: u64 = 0x0101_0101_0101_0101;

const SIXTEEN: u64 = 0x1010_1010_1010_1010;

const LOW: u64 = 0x7f7f_7f7f_7f7f_7f7f;

const HI: u64 = 0x8080_8080_8080_8080;

/// The eight bytes from i on, as one load of the machine.
pub fn word_at(s: &[u8], i: usize) -> u64
    requires { i + 8 ≤ length s.now }
    ensures { result ≡ word_at s.now i }
{
    u64::from(s[i])
        + u64::from(s[i + 1]) * 0x100
        + u64::from(s[i + 2]) * 0x1_0000
        + u64::from(s[i + 3]) * 0x100_0000
        + u64::from(s[i + 4]) * 0x1_0000_0000
        + u64::from(s[i + 5]) * 0x100_0000_0000
        + u64::from(s[i + 6]) * 0x1_0000_0000_0000
        + u64::from(s[i + 7]) * 0x100_0000_0000_0000
}

/// The four bytes from i on.
pub fn half_at(s: &[u8], i: usize) -> u64
    requires { i + 4 ≤ length s.now }
    ensures value { result ≡ half_word_at s.now i }
    ensures below { result < 4294967296 }
{
    u64::from(s[i])
        + u64::from(s[i + 1]) * 0x100
        + u64::from(s[i + 2]) * 0x1_0000
        + u64::from(s[i + 3]) * 0x100_0000
}

/// The eight bytes from i on, by halves: the compiler finds two loads before it decides what to write into its callers.
pub fn halves_at(s: &[u8], i: usize) -> u64
    requires { i + 8 ≤ length s.now }
    ensures { result ≡ word_at s.now i }
{
    half_at(s, i) + half_at(s, i + 4) * 0x1_0000_0000
}

/// Where four bytes of n begin that with the first four are all of up to eight, and of more the first eight.
pub fn second_half(n: usize) -> usize
    requires { 4 ≤ n }
    ensures low { result ≤ 4 }
    ensures within { result + 4 ≤ n }
    ensures few { n ≤ 8 → result + 4 ≡ n }
    ensures many { 8 ≤ n → result ≡ 4 }
{
    if n < 8 { n - 4 } else { 4 }
}

/// Bits for bytes of the word that equal `byte`: the lowest set bit stands in the first of them, higher ones mean nothing.
pub fn byte_hits(word: u64, byte: u8) -> u64
    ensures { count_trailing_zeros 64 result / 8 ≡ first_in byte (bytes_of_word word) }
{
    let x = word ^ (u64::from(byte) * LO);
    std::num::wrapping_sub_u64(x, LO) & !x & HI
}

/// Whether each of the first `n` of the word's bytes is from 16 to 143: with 16 taken off each, the high bit of the first that is not is set.
pub fn starts_plain(word: u64, n: usize) -> bool
    requires some { 1 ≤ n }
    requires few { n ≤ 8 }
    ensures { result ≡ nat_le n (first_outside 16 (bytes_of_word word)) }
{
    let high_bits = HI >> (64 - 8 * n);
    std::num::wrapping_sub_u64(word, SIXTEEN) & high_bits == 0
}

/// Whether one of the word's bytes equals `byte`.
pub fn has_byte(word: u64, byte: u8) -> bool
    ensures { result ≡ among byte (bytes_of_word word) }
{
    byte_hits(word, byte) != 0
}

/// One bit for each byte of the word that equals `byte`. A sum of seven bits and seven bits carries into no other byte, so each bit is exact.
pub fn byte_match_mask(word: u64, byte: u8) -> u64
    ensures { count_ones result ≡ count_of byte (bytes_of_word word) }
{
    let x = word ^ (u64::from(byte) * LO);
    !(((x & LOW) + LOW) | x | LOW) & HI
}
