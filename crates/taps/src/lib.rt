// Rows of taps alone: their masks, the table of what a mask counts (`table`), and masks of columns.
#![tactic(auto)]

mod counts;
mod five_counts;
mod table;

ghost use Rattle.std.specs.Prelude.{◌≡◌, true, false, ◌<◌, ◌≤◌, length, take};
ghost use Rattle.taps.specs.Taps.{tap_mask, mask_of_line, taps_if_free, Marked};

use lines::words;
pub use table::TapTable;

/// A row of `0` and `1` alone as a mask, its first column in the lowest bit, or another row.
#[derive(Clone, Copy)]
pub enum Taps {
    Mask(u16),
    Other,
}

/// The mask of the first four cells, by one test of all: a byte but for its lowest bit is 48 where it is a `0` or a `1`. A product puts these bits
/// beside each other; cells without a mask leave before it.
pub fn tap_mask4(row: &[u8]) -> Taps
    requires { 4 ≤ length row.now }
    ensures { result ≡ tap_mask (take 4 row.now) }
{
    let word = words::half_at(row, 0);
    if word & 0xfefe_fefe != 0x3030_3030 {
        return Taps::Other;
    }
    Taps::Mask(((word - 0x3030_3030) * 0x0102_0408 / 0x100_0000 % 256) as u16)
}

/// The mask of the first eight cells, in the same way: the bits of the second four stand beside those of the first before the product.
pub fn tap_mask8(row: &[u8]) -> Taps
    requires { 8 ≤ length row.now }
    ensures { result ≡ tap_mask (take 8 row.now) }
{
    let first = words::half_at(row, 0);
    let second = words::half_at(row, 4);
    let word = first + second * 0x1_0000_0000;
    if word & 0xfefe_fefe_fefe_fefe != 0x3030_3030_3030_3030 {
        return Taps::Other;
    }
    let bits = first - 0x3030_3030 + 16 * (second - 0x3030_3030);
    Taps::Mask((bits * 0x0102_0408 / 0x100_0000 % 256) as u16)
}

// The mask of five cells, by that of the first four.
fn tap_mask5(row: &[u8]) -> Taps
    requires { length row.now ≡ 5 }
    ensures { result ≡ tap_mask row.now }
{
    let last = u32::from(row[4]);
    match tap_mask4(row) {
        Taps::Mask(mask) => {
            if last & 0xfefe == 0x30 {
                Taps::Mask(mask + (last * 16 & 0x10) as u16)
            } else {
                Taps::Other
            }
        }
        Taps::Other => Taps::Other,
    }
}

// The mask of ten cells, by that of the first eight. A product puts the bits of the last two in their places.
fn tap_mask10(row: &[u8]) -> Taps
    requires { length row.now ≡ 10 }
    ensures { result ≡ tap_mask row.now }
{
    let last = u32::from(row[8]) + u32::from(row[9]) * 0x100;
    match tap_mask8(row) {
        Taps::Mask(mask) => {
            if last & 0xfefe == 0x3030 {
                Taps::Mask(mask + (last * 0x102 & 0x300) as u16)
            } else {
                Taps::Other
            }
        }
        Taps::Other => Taps::Other,
    }
}

/// The mask of a row of four, five, eight or ten cells; no other width has masks. The width is told by halves, since the compiler makes a table of four
/// tests in a line, which costs each row more.
#[inline(always)]
pub fn tap_line_mask(row: &[u8]) -> Taps
    requires { 4 ≤ length row.now }
    ensures { result ≡ mask_of_line row.now }
{
    let n = row.len();
    if n < 6 {
        if n == 4 {
            return tap_mask4(row);
        }
        return tap_mask5(row);
    }
    if n == 8 {
        return tap_mask8(row);
    }
    if n == 10 {
        return tap_mask10(row);
    }
    Taps::Other
}

/// The mask of a row that has one and no tap in a column of `busy`; any other row is left to its cells.
#[inline(always)]
#[tactic(auto, unfolding(crate::specs::Taps::taps_if_free))]
pub fn free_taps(row: &[u8], busy: u32) -> Taps
    requires { 4 ≤ length row.now }
    ensures { result ≡ taps_if_free busy row.now }
{
    match tap_line_mask(row) {
        Taps::Mask(mask) if u32::from(mask) & busy == 0 => Taps::Mask(mask),
        _ => Taps::Other,
    }
}

/// Columns of ten as a mask, with this one.
#[inline(always)]
pub fn with_column(busy: u32, column: usize) -> u32
    requires { column < 10 }
    ensures { Marked busy column true result }
{
    busy | (1 << column)
}

/// Columns of ten as a mask, without this one.
#[inline(always)]
pub fn without_column(busy: u32, column: usize) -> u32
    requires { column < 10 }
    ensures { Marked busy column false result }
{
    busy & !(1 << column)
}
