// What an entry left in what it was lent, beside the stored bytes of an answer. Each says true where the two are equal, else false.
#![tactic(auto)]

ghost use Rattle.std.specs.Prelude.{◌≡◌, [], slice_index};
ghost use Rattle.compare.specs.Agreement.{has_answer, same_stored_figures, numbers, longs, float_bits, bits_of_floats};

use lines::words;

// Byte `i` of an answer; past its end 0.
fn wanted_byte(want: &[u8], i: usize) -> u8
    ensures { result ≡ slice_index want.now i }
{
    if i < want.len() { want[i] } else { 0 }
}

// Number `i` of an answer, of four bytes; past its end 0.
fn wanted_number(want: &[u8], i: usize) -> u64
    ensures { result ≡ slice_index (numbers want.now) i }
{
    if i < want.len() / 4 {
        words::half_at(want, 4 * i)
    } else {
        0
    }
}

// Number `i` of an answer, of eight bytes; past its end 0.
fn wanted_long(want: &[u8], i: usize) -> u64
    ensures { result ≡ slice_index (longs want.now) i }
{
    if i < want.len() / 8 {
        words::halves_at(want, 8 * i)
    } else {
        0
    }
}

// A float's bits; what is no number has a number that no four bytes hold.
fn bits_of(x: f32) -> u64
    ensures { result ≡ float_bits x }
{
    if x != x {
        4294967296
    } else {
        u64::from(f32::to_bits(x))
    }
}

/// The 32 figures, eight bytes each.
pub fn same_figures(figures: &[u64; 32], want: &[u8]) -> bool
    ensures { result ≡ same_stored_figures figures.now (longs want.now) }
{
    want.len() / 8 == 32 && same_longs(figures, want)
}

/// The bytes of an answer, and zeros to the slice's end.
pub fn same_bytes(bytes: &[u8], want: &[u8]) -> bool
    ensures { result ≡ has_answer bytes.now want.now }
{
    want.len() <= bytes.len()
        && bytes
            .iter()
            .enumerate()
            .all(|(i, x)| *x == wanted_byte(want, i))
}

/// The numbers of an answer, and zeros to the slice's end.
pub fn same_numbers(slice: &[u32], want: &[u8]) -> bool
    ensures { result ≡ has_answer slice.now (numbers want.now) }
{
    want.len() / 4 <= slice.len()
        && slice
            .iter()
            .enumerate()
            .all(|(i, x)| u64::from(*x) == wanted_number(want, i))
}

/// The numbers of eight bytes of an answer, and zeros to the slice's end.
pub fn same_longs(slice: &[u64], want: &[u8]) -> bool
    ensures { result ≡ has_answer slice.now (longs want.now) }
{
    want.len() / 8 <= slice.len()
        && slice
            .iter()
            .enumerate()
            .all(|(i, x)| *x == wanted_long(want, i))
}

/// The floats of an answer, and zeros to the slice's end.
pub fn same_floats(floats: &[f32], want: &[u8]) -> bool
    ensures { result ≡ has_answer (bits_of_floats floats.now) (numbers want.now) }
{
    want.len() / 4 <= floats.len()
        && floats
            .iter()
            .enumerate()
            .all(|(i, x)| bits_of(*x) == wanted_number(want, i))
}

/// No answer, and zeros throughout.
pub fn all_zero(work: &[u16]) -> bool
    ensures { result ≡ has_answer work.now [] }
{
    work.iter().all(|x| *x == 0)
}
