// A chart's minimised measures, one after the other: each is written into the text slice as its lines are read, and minimised there when it ends.
#![tactic(auto)]

ghost use Rattle.std.specs.Prelude.{◌≡◌, List, [], ◌++◌, ℕ, ◌+◌, ◌*◌, ◌≤◌, length, take};
ghost use Rattle.reduction.specs.Rows.{placed, ReducesRows};
ghost use Rattle.measures.specs.Forms.{row_end, row_width, measure_end, written};
ghost use Rattle.measures.specs.Lines.{first_rows, after_first, ends_first, Fits};
ghost use Rattle.measures.specs.Reading.{Reading, NextRead, Read};

use definitions::Lanes;
use reader::charts::{ChartLine, ChartLines};

/// How rows are written: each with byte 10 after it and a `,` line between two measures, as minimised text has them, or back to back.
#[derive(Clone, Copy)]
pub enum RowForm {
    Lines,
    BackToBack,
}

impl RowForm {
    // How many bytes a row takes.
    #[inline(always)]
    fn width(self, lanes: usize) -> usize
        requires { lanes ≤ 10 }
        ensures { result ≡ row_width self lanes }
    {
        match self {
            RowForm::Lines => lanes + 1,
            RowForm::BackToBack => lanes,
        }
    }

    // A row, and what stands after it.
    #[inline(always)]
    fn put_row(self, text: &mut [u8], at: usize, row: &[u8])
        requires { at + length row.now + length (row_end self) ≤ length text.old }
        ensures { text.new ≡ placed at (row.now ++ row_end self) text.old }
    {
        match self {
            RowForm::Lines => output::put_line(text, at, row),
            RowForm::BackToBack => output::put_row(text, at, row),
        }
    }

    // What stands after a measure that a `,` line ends, or no line does. Returns where it ends.
    #[inline(always)]
    fn put_end(self, text: &mut [u8], at: usize, comma: bool) -> usize
        requires { at + length (measure_end self comma) ≤ length text.old }
        ensures value { result ≡ at + length (measure_end self comma) }
        ensures text_after { text.new ≡ placed at (measure_end self comma) text.old }
    {
        match self {
            RowForm::Lines => {
                if comma {
                    output::put_comma(text, at);
                    return at + 2;
                }
                at
            }
            RowForm::BackToBack => at,
        }
    }

    // A measure's rows minimised where they stand. Returns how many are left.
    #[inline(always)]
    fn minimise(self, text: &mut [u8], start: usize, rows: usize, lanes: Lanes) -> usize
        requires { start + rows * row_width self lanes.count ≤ length text.old }
        ensures { ReducesRows (written self) lanes.count rows start text.old result text.new }
    {
        match self {
            RowForm::Lines => reduction::reduce_output_measure(text, start, rows, lanes.count),
            RowForm::BackToBack => reduction::reduce_rows(text, start, rows, lanes.count),
        }
    }
}

/// A minimised measure: where its rows begin in the text slice, how many they are, and its number.
#[derive(Clone, Copy)]
pub struct Measure {
    pub start: usize,
    pub rows: usize,
    pub number: usize,
}

/// The lines of a chart that are left to read, and what is written of it: how many bytes and measures, and whether the last measure is.
#[derive(Drop)]
pub struct Measures<'a> {
    pub lines: ChartLines<'a>,
    pub lanes: Lanes,
    pub form: RowForm,
    pub out: usize,
    pub number: usize,
    pub over: bool,
}

// The rows of a measure, how many, and whether a `,` line ends it.
#[derive(Clone, Copy)]
struct Rows {
    count: usize,
    comma: bool,
}

/// The minimised measures of a text.
#[inline(always)]
pub fn chart_measures(data: &[u8], lanes: Lanes, form: RowForm) -> Measures<'_>
    ensures { (text : List ℕ) → Read form lanes.count «data».now result text [] }
{
    Measures {
        lines: reader::charts::chart_lines(data, lanes),
        lanes,
        form,
        out: 0,
        number: 0,
        over: false,
    }
}

// The rows of the measure that the lines begin with are written, from `start` on.
#[inline(always)]
fn write_rows(
    lines: &mut ChartLines<'_>,
    text: &mut [u8],
    start: usize,
    lanes: Lanes,
    form: RowForm,
) -> Rows
    requires { Fits lanes.count lines.old (length text.old) start }
    ensures count { result.count ≡ length (first_rows lines.old) }
    ensures comma { result.comma ≡ ends_first lines.old }
    ensures lines_after { lines.new ≡ after_first lines.old }
    ensures text_after { take (start + result.count * row_width form lanes.count) text.new
        ≡ take start text.old ++ written form (first_rows lines.old) }
{
    let width = form.width(lanes.count);
    let mut out = start;
    'rows: while let Some(line) = lines.next() {
        match line {
            ChartLine::Row(row) => {
                form.put_row(text, out, row);
                out += width;
            }
            ChartLine::Comma => {
                return Rows {
                    count: (out - start) / width,
                    comma: true,
                };
            }
        }
    }
    Rows {
        count: (out - start) / width,
        comma: false,
    }
}

impl<'a> Measures<'a> {
    /// The next measure, if any: it stands in the text, minimised, after those that were read before.
    #[inline(always)]
    pub fn next(&mut self, text: &mut [u8]) -> Option<Measure>
        requires { Reading self.old text.old }
        ensures { NextRead self.old text.old result self.new text.new }
    {
        if self.over {
            return None;
        }
        let start = self.out;
        let number = self.number;
        let found = write_rows(&mut self.lines, text, start, self.lanes, self.form);
        let rows = self.form.minimise(text, start, found.count, self.lanes);
        let end = start + rows * self.form.width(self.lanes.count);
        self.out = self.form.put_end(text, end, found.comma);
        self.number += 1;
        self.over = !found.comma;
        Some(Measure {
            start,
            rows,
            number,
        })
    }
}
