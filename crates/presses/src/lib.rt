// A pad trace set against note records: how many presses are hits and how many strays, and how many played notes are misses. Strays and misses are told by
// what is left: a press that is no hit is a stray, and a played note that has no hit is a miss.
#![tactic(auto)]

ghost use Rattle.std.specs.Prelude.{◌≡◌, ◌+◌, ◌*◌, ◌≤◌, ◌&&◌, true, false, not, length, slice_index_or, OnOk, IfOk, IfErr, Err};
ghost use Rattle.definitions.specs.Lists.{sum_columns, before};
ghost use Rattle.definitions.specs.Written.{uneven_records, broken_records, notes_in};
ghost use Rattle.definitions.specs.Refusals.{refused_if};
ghost use Rattle.definitions.specs.declared.Refusal.TheVariants.{BadRecord, BadTrace};
ghost use Rattle.definitions.specs.Presses.{press_at, presses_in, notes_rise, presses_rise, columns_fit, is_played, same_place, hits_in, played_in, of_columns, places_of_presses, bad_trace, press_answer};
ghost use Rattle.definitions.specs.PressClaims.{press_on};
ghost use Rattle.note_records.specs.Chunks.{note_of_bytes};
ghost use Rattle.note_records.specs.Limits.{Limited};
ghost use Rattle.presses.specs.Reached.{falls, left_from, past, met, again, Passed};

use definitions::{Press, Refusal};
use note_records::checks::{Order, records_whole};
use note_records::{get_word, note_of_ten};

// The lane count under which no record's column is refused.
const MOST_LANES: usize = 10;

// The number of the last of the played kinds, tap, hold and roll.
const LAST_PLAYED: u8 = 2;

// The last column that a press can have.
const LAST_COLUMN: u32 = 9;

// The press of a press record's five bytes.
#[tactic(auto, unfolding(definitions::specs::Presses::press_at))]
fn press_of_five(bytes: &[u8; 5]) -> Press
    ensures { result ≡ press_at bytes.now 0 }
{
    Press {
        row: get_word(bytes, 0),
        column: u32::from(bytes[4]),
    }
}

// The press on a note, which stands where the note does, by its record alone.
fn press_on(bytes: &[u8; 10]) -> Press
    ensures { IfOk (note_of_bytes bytes.now) (λ note. result ≡ press_on note) }
{
    let row = get_word(bytes, 0);
    Press {
        row,
        column: u32::from(bytes[8]),
    }
}

// Whether a record's note is played: a tap, a hold or a roll.
fn is_played(bytes: &[u8; 10]) -> bool
    ensures { IfOk (note_of_bytes bytes.now) (λ note. result ≡ is_played note.kind) }
{
    bytes[9] <= LAST_PLAYED
}

// Whether a press stands before another, by row, then column.
fn stands_before(press: Press, next: Press) -> bool
    ensures { result ≡ before press.row press.column next.row next.column }
{
    press.row < next.row || (press.row == next.row && press.column < next.column)
}

// Whether two presses stand at one place.
fn same_place(press: Press, other: Press) -> bool
    ensures { result ≡ same_place press.row press.column other.row other.column }
{
    press.row == other.row && press.column == other.column
}

// What one look at all records finds: whether each note stands before the next, and the played notes of each column.
#[derive(Clone, Copy)]
struct Looked {
    rising: bool,
    played: [u64; 10],
}

// Each record keeps the writer's limits. With that it is known whether the notes rise and how many are played.
fn look(records: &[u8]) -> Result<Looked, Refusal>
    requires whole { uneven_records records.now ≡ false }
    ensures accepted { OnOk result (broken_records records.now ≡ false) }
    ensures rising { IfOk result (λ looked. looked.rising ≡ notes_rise (notes_in records.now)) }
    ensures played { IfOk result (λ looked. looked.played
        ≡ of_columns (played_in (notes_in records.now)) 0 10) }
    ensures refused { IfErr result (λ refusal. refused_if (broken_records records.now) BadRecord
        ≡ Err refusal) }
{
    let mut order = Order::new();
    let mut played = [0u64; 10];
    for bytes in records.as_chunks::<10>().0 {
        match note_of_ten(bytes) {
            Ok(note) => {
                order.take(note, MOST_LANES);
                played[note.column as usize] += u64::from(is_played(bytes));
            }
            Err(_) => return Err(Refusal::BadRecord),
        }
    }
    Ok(Looked {
        rising: order.kept,
        played,
    })
}

// Whether a press stands before the one ahead of it in the trace, where there is one.
fn falls(last: Option<Press>, press: Press) -> bool
    ensures { result ≡ falls last press }
{
    match last {
        None => false,
        Some(one) => stands_before(press, one),
    }
}

// Whether no column of the trace is over 9, and no press falls.
fn trace_rises(trace: &[u8]) -> bool
    ensures { result
        ≡ (columns_fit (presses_in trace.now) && presses_rise (presses_in trace.now)) }
{
    let mut last: Option<Press> = None;
    for bytes in trace.as_chunks::<5>().0 {
        let press = press_of_five(bytes);
        if LAST_COLUMN < press.column {
            return false;
        }
        if falls(last, press) {
            return false;
        }
        last = Some(press);
    }
    true
}

// 16: the trace has part of a press, a column over 9, or a press that falls.
#[tactic(auto, unfolding(definitions::specs::Presses::bad_trace))]
fn right_trace(trace: &[u8]) -> Result<(), Refusal>
    ensures value { result ≡ refused_if (bad_trace trace.now) BadTrace }
    ensures ok { OnOk result (bad_trace trace.now ≡ false) }
{
    if trace.len() % 5 != 0 {
        return Err(Refusal::BadTrace);
    }
    if !trace_rises(trace) {
        return Err(Refusal::BadTrace);
    }
    Ok(())
}

// Whether a press stands where the press on a note does, and that note is played.
fn is_met(played: bool, there: Press, press: Press) -> bool
    ensures { result ≡ (played && same_place there.row there.column press.row press.column) }
{
    played && same_place(there, press)
}

// From record `from` on: the first whose note does not stand before the press, and whether that note is played and stands where the press does.
fn reach(records: &[u8], from: usize, press: Press) -> (usize, bool)
    requires { Limited records.now }
    ensures place { left_from records.now result.0 ≡ past press (left_from records.now from) }
    ensures noted { result.1 ≡ met press (past press (left_from records.now from)) }
{
    let (chunks, _) = records.as_chunks::<10>();
    let mut k = from;
    while k < chunks.len() {
        let there = press_on(&chunks[k]);
        if !stands_before(there, press) {
            return (k, is_met(is_played(&chunks[k]), there, press));
        }
        k += 1;
    }
    (k, false)
}

// Whether the press before stands where a press does.
fn is_again(last: Option<Press>, press: Press) -> bool
    ensures { result ≡ again last press }
{
    match last {
        None => false,
        Some(one) => same_place(one, press),
    }
}

// Whether a press that a played note is found for is a hit: the first one there.
fn is_first(noted: bool, last: Option<Press>, press: Press) -> bool
    ensures { result ≡ (noted && not (again last press)) }
{
    noted && !is_again(last, press)
}

// The hits of each column: both lists are walked along once.
fn count_hits(records: &[u8], trace: &[u8]) -> [u64; 10]
    requires { Passed records.now trace.now }
    ensures { result ≡ of_columns (hits_in (notes_in records.now) (presses_in trace.now)) 0 10 }
{
    let mut hits = [0u64; 10];
    let mut next = 0;
    let mut last: Option<Press> = None;
    for bytes in trace.as_chunks::<5>().0 {
        let press = press_of_five(bytes);
        let (place, noted) = reach(records, next, press);
        let hit = is_first(noted, last, press);
        hits[press.column as usize] += u64::from(hit);
        next = place;
        last = Some(press);
    }
    hits
}

// The counts of ten columns together.
fn sum_of(counts: &[u64; 10]) -> u64
    requires { sum_columns 10 (λ c. slice_index_or counts.now c 0) ≤ 18446744073709551615 }
    ensures { result ≡ sum_columns 10 (λ c. slice_index_or counts.now c 0) }
{
    counts[0]
        + counts[1]
        + counts[2]
        + counts[3]
        + counts[4]
        + counts[5]
        + counts[6]
        + counts[7]
        + counts[8]
        + counts[9]
}

// The 23 places of what is accepted: hits, strays, misses, then the hits of each column and the misses of each.
fn count_presses(records: &[u8], trace: &[u8], played: &[u64; 10]) -> [u64; 23]
    requires passed { Passed records.now trace.now }
    requires played { played.now ≡ of_columns (played_in (notes_in records.now)) 0 10 }
    ensures { result ≡ places_of_presses (notes_in records.now) (presses_in trace.now) }
{
    let hits = count_hits(records, trace);
    let hit = sum_of(&hits);
    let presses = (trace.len() / 5) as u64;
    [
        hit,
        presses - hit,
        sum_of(played) - hit,
        hits[0],
        hits[1],
        hits[2],
        hits[3],
        hits[4],
        hits[5],
        hits[6],
        hits[7],
        hits[8],
        hits[9],
        played[0] - hits[0],
        played[1] - hits[1],
        played[2] - hits[2],
        played[3] - hits[3],
        played[4] - hits[4],
        played[5] - hits[5],
        played[6] - hits[6],
        played[7] - hits[7],
        played[8] - hits[8],
        played[9] - hits[9],
    ]
}

/// A trace set against note records: hits, strays and misses, then the hits of the columns 0 to 9 and the misses of each. A refusal (7, 8 or 13) is the
/// mistake of whoever stores or edits the records, 16 of whoever records the trace.
#[tactic(auto, unfolding(definitions::specs::Presses::press_answer))]
pub fn press_trace(records: &[u8], trace: &[u8]) -> Result<[u64; 23], Refusal>
    ensures { result ≡ press_answer records.now trace.now }
{
    records_whole(records)?;
    let looked = look(records)?;
    if !looked.rising {
        return Err(Refusal::OutOfOrder);
    }
    right_trace(trace)?;
    Ok(count_presses(records, trace, &looked.played))
}
