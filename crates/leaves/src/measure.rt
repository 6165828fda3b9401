// Minimising of a measure's rows in place. The largest number is returned where the rows do not stand in the text.
ghost use Rattle.std.specs.Prelude.{◌≡◌, ◌<◌, ◌%◌, ◌^◌, ◌==◌};
ghost use Rattle.definitions.specs.Reduction.{all_zero};
ghost use Rattle.leaves.specs.Answers.{lanes_number, rows_in_bounds, stride_number, blocks_in_bounds, compacted_number, compacted_text};

use definitions::Lanes;

/// Whether every byte of a row is `0`.
#[unsafe(no_mangle)]
pub extern "C" fn leaves_is_all_zero(row: &[u8]) -> bool
    ensures { result ≡ all_zero row.now }
{
    cells::is_all_zero(row)
}

/// The lane count that a caller's number is. The largest number where it is none.
#[tactic(auto, unfolding(crate::specs::Answers::lanes_number, definitions::specs::Refusals::other_lanes))]
#[unsafe(no_mangle)]
pub extern "C" fn leaves_lanes_of(lanes: usize) -> usize
    ensures { result ≡ lanes_number lanes }
{
    match Lanes::of_number(lanes) {
        Ok(columns) => columns.count,
        Err(_) => usize::MAX,
    }
}

// Whether so many rows of `lanes` bytes stand `width` bytes apart in `len` bytes from `start` on.
#[tactic(auto, unfolding(crate::specs::Answers::rows_in_bounds))]
fn rows_stand(len: usize, start: usize, rows: usize, width: usize, lanes: usize) -> bool
    ensures { result ≡ rows_in_bounds len start rows width lanes }
{
    0 < lanes && lanes <= width && start <= len && rows <= (len - start) / width
}

/// 2 to the power that `measure_reduce_shift` finds. A `width` of `lanes` is for rows back to back, one more for rows with a byte 10 after each.
/// The largest number where the rows do not stand in the text.
#[tactic(auto, unfolding(crate::specs::Answers::rows_in_bounds, crate::specs::Answers::stride_number), using(crate::proofs::Powers::stride_fits, reduction::proofs::Compaction::shifted_one))]
#[unsafe(no_mangle)]
pub extern "C" fn leaves_stride(
    text: &[u8],
    start: usize,
    rows: usize,
    width: usize,
    lanes: usize,
) -> usize
    ensures { result ≡ stride_number text.now start rows width lanes }
{
    if rows_stand(text.len(), start, rows, width, lanes) {
        return 1 << reduction::measure_reduce_shift(text, start, rows, width, lanes);
    }
    usize::MAX
}

// Whether 2 to the power `shift` divides `rows`: no number of 64 bits but 0 has a higher one than the 63rd.
#[tactic(auto, using(crate::proofs::Powers::power_over, reduction::proofs::Compaction::shifted_one))]
fn is_divided(rows: usize, shift: usize) -> bool
    requires { 0 < rows }
    ensures { result ≡ (rows % 2 ^ shift == 0) }
{
    shift < 64 && rows % (1 << shift) == 0
}

// Whether so many blocks of `width` bytes stand there, and 2 to the power `shift` divides their number, which is not 0.
#[tactic(auto, unfolding(crate::specs::Answers::blocks_in_bounds))]
fn blocks_stand(len: usize, start: usize, rows: usize, shift: usize, width: usize) -> bool
    ensures { result ≡ blocks_in_bounds len start rows shift width }
{
    0 < rows && is_divided(rows, shift) && rows_stand(len, start, rows, width, width)
}

/// How many rows stay, moved together. The largest number where the rows do not stand in the text, which is then left as it was.
#[tactic(auto, unfolding(crate::specs::Answers::rows_in_bounds, crate::specs::Answers::blocks_in_bounds, crate::specs::Answers::compacted_number, crate::specs::Answers::compacted_text))]
#[unsafe(no_mangle)]
pub extern "C" fn leaves_compact_output_rows(
    text: &mut [u8],
    start: usize,
    rows: usize,
    shift: usize,
    width: usize,
) -> usize
    ensures value { result ≡ compacted_number text.old start rows shift width }
    ensures text_after { text.new ≡ compacted_text text.old start rows shift width }
{
    if blocks_stand(text.len(), start, rows, shift, width) {
        return reduction::compact_output_rows(text, start, rows, shift, width);
    }
    usize::MAX
}
