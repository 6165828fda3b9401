// The list of dropped heads, read from the end of minimised text: where a head is met the rows below it have told its fate already, so that nothing that
// is listed is taken back. The records are written from the end of a lent slice on, each in front of the last.
#![tactic(auto)]

ghost use Rattle.std.specs.Prelude.{◌≡◌, ◌||◌, List, ◌∷◌, ℕ, suc, ◌+◌, ◌-◌, ◌*◌, ◌≤◌, ◌<◌, ◌==◌, length, drop, slice_index};
ghost use Rattle.definitions.specs.Lists.{padded};
ghost use Rattle.definitions.specs.Lines.{Row};
ghost use Rattle.definitions.specs.Notes.{effect_at};
ghost use Rattle.definitions.specs.Damage.{is_head};
ghost use Rattle.definitions.specs.Dropped.{decides, dropped_heads, dropped_records, number_of_dropper, number_of_cause};
ghost use Rattle.dropped_list.specs.Listed.{HeadListed, CellListed, Listed};
ghost use Rattle.dropped_list.specs.TextOf.{TextOf, SomeText};

use definitions::{Cell, DropCause, Fate, Lanes};
use note_records::put_record;

// In a record, in place of the row that dropped a head, where the chart's end did.
const NO_ROW: u32 = 4294967295;

/// Of each column, of up to ten, the fate of a head above the rows that were read; and the number of the list's first record.
#[derive(Clone, Copy)]
pub struct Listing {
    pub fates: [Fate; 10],
    pub first: usize,
}

// The row that dropped a head, in its record.
fn dropper_number(cause: DropCause) -> u32
    ensures { result ≡ number_of_dropper cause }
{
    match cause {
        DropCause::OtherHead(row) | DropCause::OtherCell(row) => row,
        DropCause::ChartEnd => NO_ROW,
    }
}

// The reason in its record.
fn cause_number(cause: DropCause) -> u8
    ensures { result ≡ number_of_cause cause }
{
    match cause {
        DropCause::OtherHead(_) => 0,
        DropCause::OtherCell(_) => 1,
        DropCause::ChartEnd => 2,
    }
}

// What a cell of a row says of the head above it, where the rows below say this.
#[tactic(auto, unfolding(definitions::specs::Notes::effect_at))]
fn decide(b: u8, row: u32, later: Fate) -> Fate
    ensures { result ≡ decides (effect_at b) row later }
{
    match cells::cell_of(b) {
        Cell::Empty | Cell::KeySound => later,
        Cell::Tail => Fate::ClosedAt(row),
        Cell::Hold | Cell::Roll => Fate::DroppedBy(DropCause::OtherHead(row)),
        Cell::Tap
        | Cell::Mine
        | Cell::Lift
        | Cell::Fake
        | Cell::LowerMine
        | Cell::LowerLift
        | Cell::LowerFake => Fate::DroppedBy(DropCause::OtherCell(row)),
    }
}

// Whether the byte heads a note.
#[tactic(auto, unfolding(definitions::specs::Damage::is_head))]
fn is_head(b: u8) -> bool
    ensures { result ≡ is_head b }
{
    matches!(b, b'2' | b'4')
}

impl Listing {
    // A head with that fate: where it is dropped it gets a record in front of the list.
    fn put_head(&mut self, fate: Fate, row: u32, column: usize, list: &mut [u8])
        requires column_narrow { column < 10 }
        requires some_room { 1 ≤ self.old.first }
        requires list_room { self.old.first * 10 ≤ length list.old }
        ensures listed { HeadListed fate row column self.old list.old self.new list.new }
    {
        if let Fate::DroppedBy(cause) = fate {
            self.first -= 1;
            put_record(
                list,
                self.first,
                row,
                dropper_number(cause),
                column as u8,
                cause_number(cause),
            );
        }
    }

    // One cell of a row.
    fn list_cell(&mut self, b: u8, row: u32, column: usize, list: &mut [u8])
        requires column_narrow { column < 10 }
        requires some_room { 1 ≤ self.old.first }
        requires list_room { self.old.first * 10 ≤ length list.old }
        ensures listed { CellListed b row column self.old list.old self.new list.new }
    {
        let fate = self.fates[column];
        self.fates[column] = decide(b, row, fate);
        if is_head(b) {
            self.put_head(fate, row, column, list);
        }
    }

    // The row above those that were read, its cells from the last on. Most of them are `0`, which tells nothing.
    fn list_row(&mut self, row: &[u8], number: u32, list: &mut [u8])
        requires narrow { length row.now ≤ 10 }
        requires some_room { length row.now ≤ self.old.first }
        requires list_room { self.old.first * 10 ≤ length list.old }
        ensures listed { (rows : List Row)
            → Listed (length row.now) (suc number) rows self.old list.old
            → Listed (length row.now) number (row.now ∷ rows) self.new list.new }
        ensures fewer { self.new.first ≤ self.old.first }
        ensures few_records { self.old.first ≤ self.new.first + length row.now }
        ensures same_length { length list.new ≡ length list.old }
    {
        let mut column = row.len();
        while 0 < column {
            column -= 1;
            match row[column] {
                b'0' => {}
                b => self.list_cell(b, number, column, list),
            }
        }
    }
}

// Whether the line that ends at a place of minimised text is the `,` between two measures: it has one byte, and a row has four or more.
fn ends_comma(text: &[u8], at: usize) -> bool
    requires some_line { 2 ≤ at }
    requires in_text { at ≤ length text.now }
    ensures { result ≡ (at == 2 || slice_index text.now (at - 3) == 10) }
{
    at == 2 || text[at - 3] == b'\n'
}

// The list of the dropped heads of a minimised text with so many rows, at the end of a slice that has ten bytes for each of their cells. The answer is
// the number of its first record.
fn list_heads_last(text: &[u8], rows: u32, lanes: Lanes, list: &mut [u8]) -> usize
    requires minimised { SomeText lanes.count text.now rows }
    requires list_length { length list.old ≡ lanes.count * rows * 10 }
    ensures list_after { (chart : List ℕ) → TextOf lanes.count chart text.now rows
        → drop (result * 10) list.new ≡ dropped_records (dropped_heads lanes.count chart) }
    ensures in_list { result * 10 ≤ length list.new }
    ensures same_length { length list.new ≡ length list.old }
{
    let mut listing = Listing {
        fates: [Fate::DroppedBy(DropCause::ChartEnd); 10],
        first: lanes.count * rows as usize,
    };
    let mut row = rows;
    let mut at = text.len();
    while 0 < at {
        if ends_comma(text, at) {
            at -= 2;
        } else {
            let start = at - (lanes.count + 1);
            row -= 1;
            listing.list_row(&text[start..at - 1], row, list);
            at = start;
        }
    }
    listing.first
}

/// The list of the dropped heads of a minimised text with so many rows, and zeros after it. The answer is their number.
#[inline(never)]
pub fn list_heads(text: &[u8], rows: u32, lanes: Lanes, list: &mut [u8]) -> usize
    requires minimised { SomeText lanes.count text.now rows }
    requires list_room { lanes.count * rows * 10 ≤ length list.old }
    ensures value { (chart : List ℕ) → TextOf lanes.count chart text.now rows
        → result ≡ length (dropped_heads lanes.count chart) }
    ensures list_after { (chart : List ℕ) → TextOf lanes.count chart text.now rows
        → list.new
        ≡ padded 0 (length list.old) (dropped_records (dropped_heads lanes.count chart)) }
{
    let most = lanes.count * rows as usize;
    let room = most * 10;
    let first = list_heads_last(text, rows, lanes, &mut list[0..room]);
    list.copy_within(first * 10..room, 0);
    let heads = most - first;
    slices::zero_past(list, heads * 10, 0);
    heads
}
