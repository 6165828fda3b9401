// The cells of a row, byte by byte: what a byte stands for and what it does.
#![tactic(auto)]

ghost use Rattle.std.specs.Prelude.{◌≡◌};
ghost use Rattle.definitions.specs.Cells.{cell_of, is_arrow};
ghost use Rattle.definitions.specs.Figures.{is_step};
ghost use Rattle.definitions.specs.Reduction.{all_zero};
ghost use Rattle.definitions.specs.Tracker.{hold_at};
ghost use Rattle.definitions.specs.Objects.{object_at};
ghost use Rattle.lines.specs.Words.{bytes_of_word};

use definitions::{Cell, DepthEffect};
use lines::words;

/// What a byte of a row stands for. It is written into its callers, where its match and theirs become one.
#[inline(always)]
#[tactic(auto, unfolding(definitions::specs::Cells::cell_of))]
pub fn cell_of(b: u8) -> Cell
    ensures { result ≡ cell_of b }
{
    match b {
        b'1' => Cell::Tap,
        b'2' => Cell::Hold,
        b'3' => Cell::Tail,
        b'4' => Cell::Roll,
        b'M' => Cell::Mine,
        b'L' => Cell::Lift,
        b'F' => Cell::Fake,
        b'K' => Cell::KeySound,
        b'm' => Cell::LowerMine,
        b'l' => Cell::LowerLift,
        b'f' => Cell::LowerFake,
        _ => Cell::Empty,
    }
}

/// Whether the byte is an arrow.
pub fn is_note(b: u8) -> bool
    ensures { result ≡ is_arrow (cell_of b) }
{
    matches!(cell_of(b), Cell::Tap | Cell::Hold | Cell::Roll)
}

// Whether the row has an arrow.
fn cells_have_note(row: &[u8]) -> bool
    ensures { result ≡ is_step row.now }
{
    row.iter().any(|&b| is_note(b))
}

// Whether one of the word's bytes is an arrow.
#[tactic(auto, using(crate::proofs::RowWords::step_among))]
fn word_has_note(word: u64) -> bool
    ensures { result ≡ is_step (bytes_of_word word) }
{
    words::has_byte(word, b'1') | words::has_byte(word, b'2') | words::has_byte(word, b'4')
}

/// Whether the row has an arrow: by words where it has four to twelve cells. Four are half a word, and the zeros above them no arrow; of more than four
/// the halves and words may overlap.
#[inline(always)]
pub fn row_has_note(row: &[u8]) -> bool
    ensures { result ≡ is_step row.now }
{
    let n = row.len();
    if n == 4 {
        return word_has_note(words::half_at(row, 0));
    }
    if (n < 4) | (12 < n) {
        return cells_have_note(row);
    }
    if n <= 8 {
        return word_has_note(words::half_at(row, 0) + words::half_at(row, n - 4) * 0x1_0000_0000);
    }
    let first = word_has_note(words::half_at(row, 0) + words::half_at(row, 4) * 0x1_0000_0000);
    first | word_has_note(words::half_at(row, n - 8) + words::half_at(row, n - 4) * 0x1_0000_0000)
}

// Whether every byte of a row is `0`, byte by byte.
fn are_all_zero(row: &[u8]) -> bool
    ensures { result ≡ all_zero row.now }
{
    row.iter().all(|&b| b == b'0')
}

/// Whether every byte of a row is `0`: by one word where it has four or eight, and by its first four bytes, its last four and four between where
/// it has up to twelve.
pub fn is_all_zero(row: &[u8]) -> bool
    ensures { result ≡ all_zero row.now }
{
    if row.len() == 4 {
        return words::half_at(row, 0) == 0x3030_3030;
    }
    if row.len() == 8 {
        return words::halves_at(row, 0) == 0x3030_3030_3030_3030;
    }
    let n = row.len();
    if (n < 4) | (12 < n) {
        return are_all_zero(row);
    }
    let mid = words::second_half(n);
    (words::half_at(row, 0) == 0x3030_3030)
        & (words::half_at(row, mid) == 0x3030_3030)
        & (words::half_at(row, n - 4) == 0x3030_3030)
}

/// What the byte does to the tracker's stack and to the phantom depth of its column.
#[tactic(auto, unfolding(definitions::specs::Tracker::hold_at))]
pub fn hold_effect(b: u8) -> DepthEffect
    ensures { result ≡ hold_at b }
{
    match cell_of(b) {
        Cell::Tap | Cell::Mine | Cell::Lift | Cell::Fake => DepthEffect::Blocks,
        Cell::Hold | Cell::Roll => DepthEffect::Opens,
        Cell::Tail => DepthEffect::Closes,
        Cell::Empty | Cell::KeySound | Cell::LowerMine | Cell::LowerLift | Cell::LowerFake => {
            DepthEffect::Nothing
        }
    }
}

/// What the byte does to the depth that the last beat goes by: the same, and K blocks too.
#[tactic(auto, unfolding(definitions::specs::Objects::object_at))]
pub fn object_effect(b: u8) -> DepthEffect
    ensures { result ≡ object_at b }
{
    match cell_of(b) {
        Cell::Tap | Cell::Mine | Cell::Lift | Cell::Fake | Cell::KeySound => DepthEffect::Blocks,
        Cell::Hold | Cell::Roll => DepthEffect::Opens,
        Cell::Tail => DepthEffect::Closes,
        Cell::Empty | Cell::LowerMine | Cell::LowerLift | Cell::LowerFake => DepthEffect::Nothing,
    }
}
