// Minimising of a measure's rows in place (Specification, Minimising): the names and the order are those of the Rust.
#![tactic(auto)]

ghost use Rattle.std.specs.Prelude.{◌≡◌, ◌+◌, ◌*◌, ◌^◌, ◌/◌, ◌%◌, ◌≤◌, ◌<◌, length};
ghost use Rattle.std.specs.List.{copy_within};
ghost use Rattle.definitions.specs.Lists.{joined};
ghost use Rattle.definitions.specs.Figures.{row_text};
ghost use Rattle.definitions.specs.Reduction.{stride, reduce};
ghost use Rattle.reduction.specs.Rows.{rows_from, compacted, reduced_in, ReducesRows};

/// The exponent of the stride. `step` is the stride found so far, 2 to the power `shift`, and `left` the number of its multiples. Looked at
/// are the rows that the next stride would drop: the search leaves both its loops at the first of them that is not all zero.
pub fn measure_reduce_shift(
    text: &[u8],
    start: usize,
    rows: usize,
    width: usize,
    lanes: usize,
) -> usize
    requires some_width { 0 < width }
    requires cells_within { lanes ≤ width }
    requires in_text { start + rows * width ≤ length text.now }
    ensures value { 2 ^ result ≡ stride (rows_from width lanes rows start text.now) }
    ensures divides { rows % 2 ^ result ≡ 0 }
{
    let mut shift = 0;
    if rows < 2 {
        return shift;
    }
    let mut step = 1;
    let mut left = rows;
    'search: while left % 2 == 0 {
        let next = 2 * step;
        let mut row = step;
        while row < rows {
            let at = start + row * width;
            let end = at + lanes;
            if !cells::is_all_zero(&text[at..end]) {
                break 'search;
            }
            row += next;
        }
        shift += 1;
        step = next;
        left /= 2;
    }
    shift
}

// Four bytes moved to another place, all read before one is written, so that they are moved as one.
fn move_four(text: &mut [u8], from: usize, to: usize)
    requires from_within { from + 4 ≤ length text.old }
    requires to_within { to + 4 ≤ length text.old }
    ensures { text.new ≡ copy_within text.old from (from + 4) to }
{
    let a = text[from];
    let b = text[from + 1];
    let c = text[from + 2];
    let d = text[from + 3];
    text[to] = a;
    text[to + 1] = b;
    text[to + 2] = c;
    text[to + 3] = d;
}

// The `width` bytes of a row moved to an earlier place.
fn move_bytes(text: &mut [u8], from: usize, to: usize, width: usize)
    requires earlier { to ≤ from }
    requires from_within { from + width ≤ length text.old }
    ensures { text.new ≡ copy_within text.old from (from + width) to }
{
    text.copy_within(from..from + width, to);
}

// The `width` bytes of a row moved to a place before it: four at a time where it has four to twelve, the last four always, so that fours may
// overlap.
fn move_row(text: &mut [u8], from: usize, to: usize, width: usize)
    requires apart { to + width ≤ from }
    requires from_within { from + width ≤ length text.old }
    ensures { text.new ≡ copy_within text.old from (from + width) to }
{
    if (width < 4) | (12 < width) {
        move_bytes(text, from, to, width);
        return;
    }
    move_four(text, from, to);
    if 8 < width {
        move_four(text, from + 4, to + 4);
    }
    let last = width - 4;
    move_four(text, from + last, to + last);
}

/// The rows at the multiples of the stride moved together, each with its `width` bytes. Returns how many they are. What stands past them is
/// what stood there before: the caller writes over it or clears it.
pub fn compact_output_rows(
    text: &mut [u8],
    start: usize,
    rows: usize,
    shift: usize,
    width: usize,
) -> usize
    requires some { 0 < rows }
    requires divides { rows % 2 ^ shift ≡ 0 }
    requires in_text { start + rows * width ≤ length text.old }
    ensures value { result ≡ rows / 2 ^ shift }
    ensures text_after { text.new ≡ compacted width rows (2 ^ shift) start text.old }
{
    if shift == 0 {
        return rows;
    }
    let step = 1usize << shift;
    let left = rows >> shift;
    let mut row = 1;
    while row < left {
        move_row(text, start + row * step * width, start + row * width, width);
        row += 1;
    }
    left
}

// Search and compaction of `rows` rows from `start` on, each with `after` bytes after its cells. A measure without rows stays as it is.
fn reduce_measure(text: &mut [u8], start: usize, rows: usize, lanes: usize, after: usize) -> usize
    requires some_width { 0 < lanes + after }
    requires in_text { start + rows * (lanes + after) ≤ length text.old }
    ensures value { result ≡ length (reduce (rows_from (lanes + after) lanes rows start text.old)) }
    ensures text_after { text.new ≡ reduced_in (lanes + after) lanes rows start text.old }
{
    if rows == 0 {
        return 0;
    }
    let width = lanes + after;
    let shift = measure_reduce_shift(text, start, rows, width, lanes);
    compact_output_rows(text, start, rows, shift, width)
}

/// A measure minimised in the text that is written: each row has byte 10 after it. Rows may be of any width.
pub fn reduce_output_measure(text: &mut [u8], start: usize, rows: usize, lanes: usize) -> usize
    requires { start + rows * (lanes + 1) ≤ length text.old }
    ensures { ReducesRows row_text lanes rows start text.old result text.new }
{
    reduce_measure(text, start, rows, lanes, 1)
}

/// A measure minimised whose rows stand back to back. They may be of any width but none: rows of no cell are as many as one likes.
pub fn reduce_rows(text: &mut [u8], start: usize, rows: usize, lanes: usize) -> usize
    requires some_lanes { 0 < lanes }
    requires in_text { start + rows * lanes ≤ length text.old }
    ensures { ReducesRows joined lanes rows start text.old result text.new }
{
    reduce_measure(text, start, rows, lanes, 0)
}
