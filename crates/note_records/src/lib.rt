// Note records: ten bytes each, row and tail as four bytes with the low byte first, then column and kind. Reading one, and writing its bytes.
#![tactic(auto)]

pub mod checks;

ghost use Rattle.std.specs.Prelude.{◌≡◌, false, ◌+◌, ◌*◌, ◌≤◌, length, Ok, is_err};
ghost use lib.Seq.{sets};
ghost use Rattle.definitions.specs.Records.{word, bytes4, fields, number_of_kind, plain_of, held_of, note_of, note_of_record};
ghost use Rattle.note_records.specs.Fields.{fields_at};
ghost use Rattle.note_records.specs.Chunks.{note_of_bytes};

use definitions::{Kind, Note, Refusal, Tail};

/// The tail field of a note without a tail.
pub const NO_TAIL_ROW: u32 = 4294967295;

/// Four bytes as a number.
#[tactic(auto, unfolding(definitions::specs::Records::word))]
pub fn get_word(s: &[u8], at: usize) -> u32
    requires { at + 4 ≤ length s.now }
    ensures { result ≡ word s.now at }
{
    u32::from(s[at])
        + 256 * u32::from(s[at + 1])
        + 65536 * u32::from(s[at + 2])
        + 16777216 * u32::from(s[at + 3])
}

// A note without a tail.
fn plain(row: u32, tail: u32, column: u32, kind: Kind) -> Result<Note, Refusal>
    ensures { result ≡ plain_of row tail column kind }
{
    if tail == NO_TAIL_ROW {
        Ok(Note {
            row,
            tail: Tail::Without,
            column,
            kind,
        })
    } else {
        Err(Refusal::BadRecord)
    }
}

// A note with a tail, which stands after its row.
fn held(row: u32, tail: u32, column: u32, kind: Kind) -> Result<Note, Refusal>
    ensures { result ≡ held_of row tail column kind }
{
    if row < tail && tail < definitions::ROW_NUMBERS_BOUND {
        Ok(Note {
            row,
            tail: Tail::Row(tail),
            column,
            kind,
        })
    } else {
        Err(Refusal::BadRecord)
    }
}

// The note of a record's fields, where they keep to the writer's limits.
#[tactic(auto, unfolding(definitions::specs::Records::note_of))]
fn note_of(row: u32, tail: u32, column: u32, kind: u8) -> Result<Note, Refusal>
    ensures { result ≡ note_of row tail column kind }
{
    if 10 <= column {
        return Err(Refusal::BadRecord);
    }
    if definitions::ROW_NUMBERS_BOUND <= row {
        return Err(Refusal::BadRecord);
    }
    match kind {
        0 => plain(row, tail, column, Kind::Tap),
        1 => held(row, tail, column, Kind::Hold),
        2 => held(row, tail, column, Kind::Roll),
        3 => plain(row, tail, column, Kind::Mine),
        4 => plain(row, tail, column, Kind::Lift),
        5 => plain(row, tail, column, Kind::Fake),
        _ => Err(Refusal::BadRecord),
    }
}

/// The note of a record's ten bytes. Who goes over all records goes over `as_chunks`, whose chunks they are. A refusal (8) is the mistake of whoever
/// stores the records.
pub fn note_of_ten(bytes: &[u8; 10]) -> Result<Note, Refusal>
    ensures { result ≡ note_of_bytes bytes.now }
{
    let row = get_word(bytes, 0);
    let tail = get_word(bytes, 4);
    note_of(row, tail, u32::from(bytes[8]), bytes[9])
}

/// The note of a record that keeps the writer's limits.
pub fn limited_note(bytes: &[u8; 10]) -> Note
    requires { is_err (note_of_bytes bytes.now) ≡ false }
    ensures { note_of_bytes bytes.now ≡ Ok result }
{
    match note_of_ten(bytes) {
        Ok(note) => note,
        Err(_) => unreachable!(),
    }
}

/// The note of record number `index`, counted from 0, of records of ten bytes each. A refusal (7 or 8) is the mistake of whoever stores the records.
#[tactic(auto, unfolding(definitions::specs::Records::note_of_record))]
pub fn read_note(records: &[u8], index: usize) -> Result<Note, Refusal>
    ensures { result ≡ note_of_record records.now index }
{
    if records.len() % 10 != 0 {
        return Err(Refusal::NoRecord);
    }
    if records.len() / 10 <= index {
        return Err(Refusal::NoRecord);
    }
    let at = index * 10;
    let row = get_word(records, at);
    let tail = get_word(records, at + 4);
    let column = u32::from(records[at + 8]);
    let kind = records[at + 9];
    note_of(row, tail, column, kind)
}

/// A number as four bytes.
pub fn put_word(s: &mut [u8], at: usize, v: u32)
    requires { at + 4 ≤ length s.old }
    ensures { s.new ≡ sets s.old at (bytes4 v) }
{
    s[at] = (v % 256) as u8;
    s[at + 1] = (v / 256 % 256) as u8;
    s[at + 2] = (v / 65536 % 256) as u8;
    s[at + 3] = (v / 16777216 % 256) as u8;
}

/// The number of a kind in a record: 0 tap, 1 hold, 2 roll, 3 mine, 4 lift, 5 fake.
pub fn kind_number(kind: Kind) -> u8
    ensures { result ≡ number_of_kind kind }
{
    match kind {
        Kind::Tap => 0,
        Kind::Hold => 1,
        Kind::Roll => 2,
        Kind::Mine => 3,
        Kind::Lift => 4,
        Kind::Fake => 5,
    }
}

/// The bytes of record number k.
pub fn put_record(records: &mut [u8], k: usize, row: u32, tail: u32, column: u8, kind: u8)
    requires { k * 10 + 10 ≤ length records.old }
    ensures { records.new ≡ sets records.old (k * 10) (fields row tail column kind) }
{
    let at = k * 10;
    put_word(records, at, row);
    put_word(records, at + 4, tail);
    records[at + 8] = column;
    records[at + 9] = kind;
}

/// Copies a record to the front.
pub fn move_record(records: &mut [u8], from: usize, to: usize)
    requires from_within { from * 10 + 10 ≤ length records.old }
    requires earlier { to ≤ from }
    ensures { records.new ≡ sets records.old (to * 10) (fields_at records.old (from * 10)) }
{
    let at = from * 10;
    let row = get_word(records, at);
    let tail = get_word(records, at + 4);
    let column = records[at + 8];
    let kind = records[at + 9];
    put_record(records, to, row, tail, column, kind);
}
