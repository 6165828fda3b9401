// Reading minimised text back, as `parse_minimized_rows` does: by lines, with no blanks stripped, no comment known and no end at `;`.
ghost use Rattle.std.specs.Prelude.{◌≡◌, ◌==◌, ◌<◌, ◌-◌, ◌&&◌, not, nat_le, length, slice_index};
ghost use Rattle.definitions.specs.Lines.{is_row_line};
ghost use Rattle.definitions.specs.ReadBack.{begins_mark, rows_read_back};
ghost use Rattle.std.specs.Iterator.{YieldsFirstRef};
ghost use Rattle.lines.specs.Lines.{first_line};
ghost use Rattle.reader.specs.Reading.{LineStep, near_back_row};

use definitions::Lanes;
use std::marker::Model;

// Whether the first line of a text is a row and begins with no `,` or `;`. A byte 13 at its end takes none of its cells.
fn is_back_row(text: &[u8], lanes: usize) -> bool
    requires { 0 < length text.now }
    ensures { result ≡ (is_row_line lanes (first_line text.now)
        && not (begins_mark (first_line text.now))) }
{
    let first = text[0];
    (first != b',') & (first != b';') & crate::begins_row(text, lanes)
}

// Whether a text begins with a row, as most lines of minimised text do. The tests are joined without a branch.
fn is_near_row(text: &[u8], lanes: Lanes) -> bool
    ensures { result ≡ near_back_row lanes.count text.now }
{
    if text.len() < 12 {
        return false;
    }
    let first = text[0];
    crate::has_cells(text, lanes) & (15 < first) & (first != b',') & (first != b';')
}

// Whether it does, and its line has `step` bytes with its newline, as most lines have.
fn is_just_row(text: &[u8], lanes: Lanes, step: usize) -> bool
    requires { LineStep lanes.count step }
    ensures { result ≡ (nat_le 12 (length text.now)
        && (near_back_row lanes.count text.now && slice_index text.now (step - 1) == 10)) }
{
    if text.len() < 12 {
        return false;
    }
    is_near_row(text, lanes) & (text[step - 1] == 10)
}

/// The rows of minimised text that is left to read back, each as a part of it. Clauses see the list of them.
#[derive(Drop)]
pub struct BackRows<'a> {
    rest: &'a [u8],
    lanes: Lanes,
    step: usize,
}

impl<'a> Model for BackRows<'a> {
    ghost use Rattle.std.specs.Prelude.{List};
    ghost use Rattle.definitions.specs.Lines.{Row};
    ghost use Rattle.definitions.specs.ReadBack.{rows_read_back};
    ghost use Rattle.reader.specs.Reading.{LineStep};

    ghost Value = { List Row };

    ghost view = { λ it. rows_read_back it.lanes.count it.rest.now };

    ghost invariant = { λ it. LineStep it.lanes.count it.step };
}

// The first row, if any, what of the text follows its line, and how many bytes the lines of rows are taken to have there.
#[derive(Drop)]
struct RowAhead<'a> {
    row: Option<&'a [u8]>,
    rest: &'a [u8],
    step: usize,
}

// Line by line to the first row, written into each loop as that of a chart is. A line that is none tells how those of rows end.
#[inline(always)]
fn look_ahead(text: &[u8], lanes: Lanes, step: usize) -> RowAhead<'_>
    requires { LineStep lanes.count step }
    ensures step { LineStep lanes.count result.step }
    ensures rows { YieldsFirstRef (λ s. s)
        (rows_read_back lanes.count text.now)
        result.row (rows_read_back lanes.count result.rest.now) }
{
    let mut rest = text;
    let mut told = step;
    while !rest.is_empty() {
        if is_near_row(rest, lanes) {
            return RowAhead {
                row: Some(&rest[..lanes.count]),
                rest: crate::below_cells(rest, lanes),
                step: told,
            };
        }
        let below = lines::next_line(rest, 0).1;
        if is_back_row(rest, lanes.count) {
            return RowAhead {
                row: Some(&rest[..lanes.count]),
                rest: below,
                step: told,
            };
        }
        told = crate::step_told(rest, below, lanes);
        rest = below;
    }
    RowAhead {
        row: None,
        rest,
        step: told,
    }
}

impl<'a> Iterator for BackRows<'a> {
    ghost use Rattle.std.specs.Iterator.{YieldsFirstRef, item_count};

    type Item = &'a [u8];

    ghost next_gives = { YieldsFirstRef (λ rest. rest) };

    ghost remaining = { item_count (λ rest. rest) };

    // A row, as most lines are, is told by one look.
    #[inline(always)]
    fn next(&mut self) -> Option<&'a [u8]> {
        let text = self.rest;
        if is_just_row(text, self.lanes, self.step) {
            self.rest = &text[self.step..];
            return Some(&text[..self.lanes.count]);
        }
        let ahead = look_ahead(text, self.lanes, self.step);
        self.rest = ahead.rest;
        self.step = ahead.step;
        ahead.row
    }
}

/// The rows of minimised text.
pub fn back_rows(text: &[u8], lanes: Lanes) -> BackRows<'_>
    ensures { result ≡ rows_read_back lanes.count text.now }
{
    BackRows {
        rest: text,
        lanes,
        step: crate::line_step(text, lanes),
    }
}
