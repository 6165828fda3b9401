// Reading a chart's text line by line: its rows and the ends of its measures (`charts`), and the rows of minimised text (`back`), each row as a part of
// the text that was lent.
#![tactic(auto)]

pub mod back;
pub mod charts;

ghost use Rattle.std.specs.Prelude.{◌≡◌, ◌<◌, ◌≤◌, length, drop};
ghost use Rattle.definitions.specs.Lists.{among, after};
ghost use Rattle.definitions.specs.Lines.{is_row_line};
ghost use Rattle.lines.specs.Lines.{first_line};
ghost use Rattle.reader.specs.Reading.{LineStep, near_cells};

use definitions::Lanes;

// Whether one of some bytes is `byte`: by std's search, since `find_byte` is left to the newline.
fn has_byte(bytes: &[u8], byte: u8) -> bool
    ensures { result ≡ among byte bytes.now }
{
    bytes.iter().any(|&b| b == byte)
}

/// Whether the first line of a text is a row where it is nothing else: it has all cells, and none of them is a newline or a carriage return.
pub fn begins_row(text: &[u8], lanes: usize) -> bool
    ensures { result ≡ is_row_line lanes (first_line text.now) }
{
    let short = text.len() < lanes;
    if short {
        return false;
    }
    let cells = &text[..lanes];
    !has_byte(cells, 10) & !has_byte(cells, 13)
}

/// Whether a text whose first byte is 16 or more begins with all cells of a row, none of them below 16, as a newline and a byte 13 are. The answer is no
/// too where the text is nearly at its end, or a cell is above 143, as no letter is. Where the line ends is not asked.
pub fn has_cells(text: &[u8], lanes: Lanes) -> bool
    ensures { result ≡ near_cells lanes.count text.now }
{
    if text.len() < 12 {
        return false;
    }
    lines::starts_plain(text, lanes.count)
}

/// What follows the line of a row that the text begins with: its newline stands right after the cells or one byte further, or is searched for. Out of line
/// it leaves the loops over rows their registers.
#[inline(never)]
pub fn below_cells(text: &[u8], lanes: Lanes) -> &[u8]
    requires { 12 ≤ length text.now }
    ensures { result.now ≡ after 10 (drop lanes.count text.now) }
{
    let at_once = text[lanes.count] == 10;
    if at_once {
        return &text[lanes.count + 1..];
    }
    let past_one = text[lanes.count + 1] == 10;
    if past_one {
        return &text[lanes.count + 2..];
    }
    lines::text_below(&text[lanes.count + 2..])
}

/// The first line of a text and what follows it, where they are asked for seldom: it is written into no loop over rows.
#[inline(never)]
pub fn seldom_line(text: &[u8]) -> (&[u8], &[u8])
    ensures line { result.0.now ≡ first_line text.now }
    ensures below { result.1.now ≡ after 10 text.now }
{
    lines::next_line(text, 0)
}

/// How many bytes the lines of rows are taken to have from now on, as the line tells it which a text begins with and `below` follows.
pub fn step_told(text: &[u8], below: &[u8], lanes: Lanes) -> usize
    requires { length below.now < length text.now }
    ensures { LineStep lanes.count result }
{
    let bytes = text.len() - below.len();
    if bytes < 2 {
        return lanes.count + 1;
    }
    if text[bytes - 2] == 13 {
        return lanes.count + 2;
    }
    lanes.count + 1
}

/// How many bytes the line of a row has with its newline, as the first line of the text tells it: two more than its cells where byte 13 is its last. So
/// many of the text's bytes are looked at. Each `,` line tells it anew.
pub fn line_step(text: &[u8], lanes: Lanes) -> usize
    ensures { LineStep lanes.count result }
{
    let front = &text[..usize::min(text.len(), 256)];
    match seldom_line(front).0 {
        [.., 13] => lanes.count + 2,
        _ => lanes.count + 1,
    }
}
