// A chart's minimised rows gone over once, measure by measure: each row is counted and noted, an ordinary one by its mask, any other by its cells.
#![tactic(auto)]

ghost use Rattle.std.specs.Prelude.{◌≡◌, List, [], ℕ, ◌+◌, ◌-◌, ◌*◌, ◌≤◌, ◌<◌, length};
ghost use Rattle.definitions.specs.Sizes.{measures_bound, row_count_bound};
ghost use Rattle.definitions.specs.Lines.{Row};
ghost use Rattle.definitions.specs.Figures.{density as density_of};
ghost use Rattle.row_walk.specs.Columns.{Ten};
ghost use Rattle.reduction.specs.Rows.{rows_of};
ghost use Rattle.reduction.specs.States.{EndsMeasure};
ghost use Rattle.measure_tally.specs.Counted.{Counted, CountsAll};
ghost use Rattle.tap_walk.specs.Noted.{Noted, NotedRows};
ghost use Rattle.tap_walk.specs.Held.{noting_of};
ghost use Rattle.tap_walk.specs.Walked.{Walking};
ghost use Rattle.measure_walk.specs.Views.{rest, counting, noting, NotesAll};

use beats::RowPlace;
use phantoms::Phantoms;
use row_notes::ChartNotesScratch;
use row_walk::cell_walk::Run;
use row_walk::columns::Columns;
use taps::TapTable;

/// What rows change; the steps before the open measure, the last object row of the measures that are walked, and their number.
#[derive(Clone, Copy)]
pub struct Walk {
    pub run: Run,
    pub before: u32,
    pub found: Option<RowPlace>,
    pub midx: u32,
}

impl Walk {
    /// Before the first row.
    pub fn new() -> Self
        ensures ten { Ten result.run.columns }
        ensures counted { (L : ℕ) → L ≤ 10 → Counted L (counting result) [] [] }
        ensures noted { (L : ℕ) (l : List ℕ) → Noted L (noting result) l [] }
        ensures nothing_walked { result.run.row ≡ 0 }
    {
        Walk {
            run: Run {
                columns: Columns {
                    phantoms: phantoms::no_phantoms(),
                    object_depths: [0; 10],
                    hold_heads: [row_notes::NO_HEAD; 10],
                    busy: 0,
                },
                stats: row_tally::no_stats(),
                count: 0,
                row: 0,
                last: 0,
                invalid: false,
            },
            before: 0,
            found: None,
            midx: 0,
        }
    }

    // For the notes and the last object row the open measure ends, before which `first` rows stand.
    fn end_rows(&mut self, first: u32)
        requires first_row { first ≤ self.old.run.row }
        requires rows_few { self.old.run.row - first < row_count_bound }
        requires measures_few { self.old.midx ≤ measures_bound }
        ensures noted { (L : ℕ) (l : List ℕ) → EndsMeasure
            (NotedRows L (noting_of first (rest self.old) self.old.run) l)
            (NotedRows L (noting self.new) l) }
        ensures counting_stays { counting self.new ≡ counting self.old }
        ensures columns_stay { self.new.run.columns ≡ self.old.run.columns }
    {
        if first < self.run.last {
            self.found = Some(RowPlace {
                measure: self.midx,
                row: self.run.last - 1 - first,
                rows: self.run.row - first,
            });
        }
        self.run.last = 0;
        self.midx += 1;
    }

    /// The rows of a measure that stand in a text from `start` on, each with a newline byte after it; for the notes the measure then ends.
    pub fn walk_rows(
        &mut self,
        text: &[u8],
        start: usize,
        rows: usize,
        slots: &mut [u8],
        table: &TapTable,
    )
        requires in_text { start + rows * (table.now.lanes.count + 1) ≤ length text.now }
        requires ten { Ten self.old.run.columns }
        requires walking { Walking table.now.lanes.count
            (counting self.old) (noting self.old) slots.old
            (rows_of table.now.lanes.count rows text.now start) 0 }
        ensures ten { Ten self.new.run.columns }
        ensures counted { CountsAll table.now.lanes.count
            (rows_of table.now.lanes.count rows text.now start)
            (counting self.old) (counting self.new) }
        ensures noted { NotesAll table.now.lanes.count
            (rows_of table.now.lanes.count rows text.now start)
            (noting self.old) slots.old (noting self.new) slots.new }
    {
        let lanes = table.lanes.count;
        let first = self.run.row;
        let mut at = start;
        let mut i = 0;
        while i < rows {
            let end = at + lanes;
            tap_walk::add_row(&mut self.run, &text[at..end], slots, table);
            at = end + 1;
            i += 1;
        }
        self.end_rows(first);
    }

    /// The density of the open measure.
    pub fn density(&self) -> u32
        requires { self.now.before ≤ self.now.run.stats.total_steps }
        ensures { (L : ℕ) (done : List (List Row)) (cur : List Row)
            → Counted L (counting self.now) done cur → result ≡ density_of cur }
    {
        self.run.stats.total_steps - self.before
    }

    /// For what is counted the open measure ends.
    pub fn end_measure(&mut self)
        ensures counted { (L : ℕ)
            → EndsMeasure (Counted L (counting self.old)) (Counted L (counting self.new)) }
        ensures noting_stays { noting self.new ≡ noting self.old }
        ensures columns_stay { self.new.run.columns ≡ self.old.run.columns }
    {
        self.before = self.run.stats.total_steps;
    }

    /// What the correction asks of the rows.
    pub fn phantoms(&self) -> Phantoms
        ensures { result ≡ (counting self.now).phantoms }
    {
        self.run.columns.phantoms
    }

    /// What the notes' end asks.
    pub fn scratch(&self) -> ChartNotesScratch
        ensures { result ≡ (noting self.now).scratch }
    {
        ChartNotesScratch {
            hold_heads: self.run.columns.hold_heads,
            count: self.run.count,
            row_index: self.run.row,
            has_invalid: self.run.invalid,
        }
    }
}
