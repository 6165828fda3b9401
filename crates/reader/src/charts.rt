// The rows of a chart's text and the ends of its measures, one after the other, each row as a part of that text.
ghost use Rattle.std.specs.Prelude.{◌≡◌, ◌==◌, ◌<◌, ◌&&◌, not, length, slice_index};
ghost use Rattle.definitions.specs.Lists.{after};
ghost use Rattle.definitions.specs.Lines.{is_row_line};
ghost use Rattle.lines.specs.Lines.{first_line};
ghost use Rattle.std.specs.Iterator.{YieldsFirstBy};
ghost use Rattle.reader.specs.Marks.{chart_marks};
ghost use Rattle.reader.specs.ChartLines.{mark_of};
ghost use Rattle.reader.specs.Reading.{LineStep, near_row};

use definitions::Lanes;
use std::marker::Model;

/// A line that counts: a row's cells, or the end of a measure.
#[derive(Clone, Copy)]
pub enum ChartLine<'a> {
    Row(&'a [u8]),
    Comma,
}

/// The lines that count of the text that is left to read. Clauses see the list of them.
#[derive(Drop)]
pub struct ChartLines<'a> {
    rest: &'a [u8],
    lanes: Lanes,
    step: usize,
}

impl<'a> Model for ChartLines<'a> {
    ghost use Rattle.std.specs.Prelude.{List, Option};
    ghost use Rattle.definitions.specs.Lines.{Row};
    ghost use Rattle.reader.specs.Reading.{LineStep};
    ghost use Rattle.reader.specs.Marks.{chart_marks};

    ghost Value = { List (Option Row) };

    ghost view = { λ it. chart_marks it.lanes.count it.rest.now };

    ghost invariant = { λ it. LineStep it.lanes.count it.step };
}

// Whether a text begins with a row, with nothing before it, as most of a chart's lines do. What begins with a blank or a `,` leaves before a word is read.
fn is_near_row(text: &[u8], lanes: Lanes) -> bool
    ensures { result ≡ near_row lanes.count text.now }
{
    if text.len() < 12 {
        return false;
    }
    let first = text[0];
    if first <= b'/' {
        return false;
    }
    crate::has_cells(text, lanes) && first != b';'
}

// The first line that counts, if any, what of the text follows it, and how many bytes the lines of rows are taken to have there.
#[derive(Drop)]
struct Ahead<'a> {
    line: Option<ChartLine<'a>>,
    rest: &'a [u8],
    step: usize,
}

// Whether the first line of a text is a row: where it begins with no `/`, and is told from `,` and `;` lines and from blanks. It stays out of the loops
// over rows, as what follows does: few lines are asked so.
#[inline(never)]
fn is_row(text: &[u8], lanes: usize) -> bool
    requires { 0 < length text.now }
    ensures { result ≡ (not (slice_index text.now 0 == 47)
        && is_row_line lanes (first_line text.now)) }
{
    text[0] != b'/' && crate::begins_row(text, lanes)
}

// What follows the first line of a text.
#[inline(never)]
fn below_line(text: &[u8]) -> &[u8]
    ensures { result.now ≡ after 10 text.now }
{
    crate::seldom_line(text).1
}

// What follows a `,` line: mostly its newline stands right after the comma, or one byte further.
#[inline(always)]
fn below_comma(text: &[u8]) -> &[u8]
    requires some { 0 < length text.now }
    requires comma { slice_index text.now 0 ≡ 44 }
    ensures { result.now ≡ after 10 text.now }
{
    if text.len() < 3 {
        return below_line(text);
    }
    let bare = text[1] == 10;
    if bare {
        return &text[2..];
    }
    let past_one = text[2] == 10;
    if past_one {
        return &text[3..];
    }
    below_line(text)
}

// The first line that counts of a text that begins with no row, by its first byte. It is written into each loop, where a row's length is then known to be
// the lane count. Blanks are taken off the text and not off a line, since a line of blanks is passed over too; most stand before a row.
#[inline(always)]
fn look_ahead(text: &[u8], lanes: Lanes, step: usize) -> Ahead<'_>
    requires { LineStep lanes.count step }
    ensures lines { YieldsFirstBy mark_of (λ s. s)
        (chart_marks lanes.count text.now) result.line (chart_marks lanes.count result.rest.now) }
    ensures step { LineStep lanes.count result.step }
{
    let mut rest = text;
    while !rest.is_empty() {
        let first = rest[0];
        if lines::is_blank(first) {
            let bare = lines::skip_ws(&rest[1..]);
            if is_near_row(bare, lanes) {
                if bare[step - 1] == 10 {
                    return Ahead {
                        line: Some(ChartLine::Row(&bare[..lanes.count])),
                        rest: &bare[step..],
                        step,
                    };
                }
                return Ahead {
                    line: Some(ChartLine::Row(&bare[..lanes.count])),
                    rest: crate::below_cells(bare, lanes),
                    step,
                };
            }
            rest = bare;
            continue;
        }
        if first == b',' {
            let next = below_comma(rest);
            return Ahead {
                line: Some(ChartLine::Comma),
                rest: next,
                step: crate::step_told(rest, next, lanes),
            };
        }
        let ends = first == b';';
        if ends {
            return Ahead {
                line: None,
                rest: &rest[..0],
                step,
            };
        }
        let below = below_line(rest);
        if is_row(rest, lanes.count) {
            return Ahead {
                line: Some(ChartLine::Row(&rest[..lanes.count])),
                rest: below,
                step,
            };
        }
        rest = below;
    }
    Ahead {
        line: None,
        rest,
        step,
    }
}

impl<'a> Iterator for ChartLines<'a> {
    ghost use Rattle.std.specs.Iterator.{YieldsFirstBy, item_count};
    ghost use Rattle.reader.specs.ChartLines.{mark_of};

    type Item = ChartLine<'a>;

    ghost next_gives = { YieldsFirstBy mark_of (λ rest. rest) };

    ghost remaining = { item_count (λ rest. rest) };

    // A row that nothing stands before, as in most lines, is told by one look, and by the newline where the last `,` line told it to stand.
    #[inline(always)]
    fn next(&mut self) -> Option<ChartLine<'a>> {
        let text = self.rest;
        if is_near_row(text, self.lanes) {
            if text[self.step - 1] == 10 {
                self.rest = &text[self.step..];
                return Some(ChartLine::Row(&text[..self.lanes.count]));
            }
            self.rest = crate::below_cells(text, self.lanes);
            return Some(ChartLine::Row(&text[..self.lanes.count]));
        }
        let ahead = look_ahead(text, self.lanes, self.step);
        self.rest = ahead.rest;
        self.step = ahead.step;
        ahead.line
    }
}

/// The lines of a chart's text that count.
pub fn chart_lines(data: &[u8], lanes: Lanes) -> ChartLines<'_>
    ensures { result ≡ chart_marks lanes.count «data».now }
{
    ChartLines {
        rest: data,
        lanes,
        step: crate::line_step(data, lanes),
    }
}
