// Typed notes: rows go in one by one, and the notes' records stand in a slice that the caller lends. One open head a column stands in a
// struct by value; a head's record stands in the slice from its row on, and a later cell of its column writes the tail or drops the record.
#![tactic(auto)]

ghost use Rattle.std.specs.Prelude.{◌≡◌, true, List, ◌+◌, ◌*◌, ◌≤◌, ◌<◌, length};
ghost use lib.Seq.{sets};
ghost use Rattle.definitions.specs.Lists.{number_of_bool};
ghost use Rattle.definitions.specs.Lines.{Row};
ghost use Rattle.definitions.specs.Records.{fields};
ghost use Rattle.row_notes.specs.Writer.{HeadThere, HoldEnded, invalid_after, no_head, no_tail, dropped, end_at, note_at, CellReady, HeadsEnded, Compacted, HoldsDrafts};
ghost use Rattle.row_notes.specs.Masks.{LowOf};
ghost use Rattle.row_notes.specs.Written.{Written, MaskReady, MaskWritten, RowsWritten, Finished};
ghost use Rattle.row_notes.specs.declared.ChartNotesScratch.{ChartNotesScratch};

use definitions::Kind;
use note_records::{NO_TAIL_ROW, get_word, kind_number, move_record, put_record, put_word};

// The tail field of a record that is dropped.
const INVALID_NOTE_ROW: u32 = 4294967294;

/// The open head of a column without one.
pub const NO_HEAD: u32 = 4294967295;

/// The writer's state: of each column the number of its open head's record, the number of records, the number of rows, and whether a
/// record was dropped.
#[derive(Clone, Copy)]
pub struct ChartNotesScratch {
    pub hold_heads: [u32; 10],
    pub count: usize,
    pub row_index: u32,
    pub has_invalid: bool,
}

/// Ends a head's note with this tail; `NO_HEAD` has none.
pub fn end_note(head: u32, tail: u32, notes: &mut [u8])
    requires { (head ≡ no_head → ⊥) → head * 10 + 10 ≤ length notes.old }
    ensures { notes.new ≡ end_at notes.old head tail }
{
    if head != NO_HEAD {
        put_word(notes, (head as usize) * 10 + 4, tail);
    }
}

/// Drops a head's note and adds a record without a tail.
pub fn put_note(head: u32, count: usize, row: u32, column: usize, kind: Kind, notes: &mut [u8])
    requires { CellReady notes.old head count row column }
    ensures { notes.new ≡ note_at notes.old head count row column kind }
{
    end_note(head, INVALID_NOTE_ROW, notes);
    put_record(
        notes,
        count,
        row,
        NO_TAIL_ROW,
        column as u8,
        kind_number(kind),
    );
}

// Ends the open head of a column, if there is one, with this tail.
fn end_hold(
    mut s: ChartNotesScratch,
    column: usize,
    tail: u32,
    notes: &mut [u8],
) -> ChartNotesScratch
    requires { HeadThere notes.old s column }
    ensures { HoldEnded notes.old s column tail s.has_invalid notes.new result }
{
    end_note(s.hold_heads[column], tail, notes);
    s.hold_heads[column] = NO_HEAD;
    s
}

// Drops the open head of a column, if there is one.
fn invalidate_hold(s: ChartNotesScratch, column: usize, notes: &mut [u8]) -> ChartNotesScratch
    requires { HeadThere notes.old s column }
    ensures { HoldEnded notes.old s column dropped (invalid_after s column) notes.new result }
{
    let had_head = s.hold_heads[column] != NO_HEAD;
    let mut out = end_hold(s, column, INVALID_NOTE_ROW, notes);
    out.has_invalid |= had_head;
    out
}

// A record of a tap at the end of the records, and their number with it; where there is no tap the next record is written over this one.
fn push_tap(row: u32, count: usize, column: usize, tap: bool, notes: &mut [u8]) -> usize
    requires notes_room { count * 10 + 10 ≤ length notes.old }
    requires column_narrow { column < 10 }
    requires notes_few { count < 4294967295 }
    ensures value { result ≡ count + number_of_bool tap }
    ensures notes_after { notes.new ≡ sets notes.old (count * 10) (fields row no_tail column 0) }
{
    put_record(notes, count, row, NO_TAIL_ROW, column as u8, 0);
    count + usize::from(tap)
}

// The lowest column of a mask, that it is a tap's, and the rest of the mask; of an empty mask no tap, in some column.
#[derive(Clone, Copy)]
struct LowBit {
    column: usize,
    tap: bool,
    rest: u32,
}

fn low_bit(mask: u32) -> LowBit
    requires { mask < 1024 }
    ensures { LowOf mask result.column result.tap result.rest }
{
    let column = u32::trailing_zeros(mask | 512) as usize;
    if mask == 0 {
        return LowBit {
            column,
            tap: false,
            rest: 0,
        };
    }
    LowBit {
        column,
        tap: true,
        rest: mask & (mask - 1),
    }
}

/// The records of a row of taps alone in columns without an open head, by its mask, and the number of records with them. A row without a tap has
/// none, and most others have one, which is written before the loop.
pub fn push_mask(row: u32, number: usize, mask: u16, notes: &mut [u8]) -> usize
    requires { MaskReady row number mask notes.old }
    ensures { MaskWritten row number mask notes.old result notes.new }
{
    if mask == 0 {
        return number;
    }
    let one = low_bit(u32::from(mask));
    let mut count = push_tap(row, number, one.column, one.tap, notes);
    let mut left = one.rest;
    while left != 0 {
        let next = low_bit(left);
        count = push_tap(row, count, next.column, next.tap, notes);
        left = next.rest;
    }
    count
}

// Drops the heads that are still open.
fn close_heads(mut s: ChartNotesScratch, notes: &mut [u8]) -> ChartNotesScratch
    requires { HoldsDrafts notes.old s }
    ensures { HeadsEnded notes.old s notes.new result }
{
    for column in 0..10 {
        s = invalidate_hold(s, column, notes);
    }
    s
}

// Moves the records that are not dropped to the front, and answers their number.
fn retain_valid(count: usize, notes: &mut [u8]) -> usize
    requires { count * 10 ≤ length notes.old }
    ensures { Compacted notes.old count true notes.new result }
{
    let mut stay = 0;
    for k in 0..count {
        let tail = get_word(notes, k * 10 + 4);
        if tail != INVALID_NOTE_ROW {
            move_record(notes, k, stay);
            stay += 1;
        }
    }
    stay
}

// The same, where a record was dropped; else every record stays where it is.
fn retain(s: ChartNotesScratch, notes: &mut [u8]) -> usize
    requires { s.count * 10 ≤ length notes.old }
    ensures { Compacted notes.old s.count s.has_invalid notes.new result }
{
    if s.has_invalid {
        retain_valid(s.count, notes)
    } else {
        s.count
    }
}

/// The end: heads that are open are dropped, and zeros stand after the records. The answer is their number.
pub fn finish(s: ChartNotesScratch, notes: &mut [u8]) -> usize
    requires { RowsWritten s notes.old }
    ensures { (rows : List Row) → Written rows s notes.old
        → Finished rows (length notes.old) notes.new result }
{
    let out = close_heads(s, notes);
    let count = retain(out, notes);
    slices::zero_past(notes, count * 10, 0);
    count
}
