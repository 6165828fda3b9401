// A row's entry in the work slice: its arrows in bits 0 to 3, its paired heads in bits 4 to 7, in bits 8 to 11 its tails or, in a judged tally, the pairs
// of judged heads that end there, and of a judged row in bit 12 whether it has a mine or fake, and bit 13.
ghost use Rattle.std.specs.Prelude.{◌≡◌, ℕ, Bool, true, false, ◌≤◌, ◌<◌, length, slice_index};
ghost use Rattle.definitions.specs.Cells.{hold_effect};
ghost use Rattle.definitions.specs.Correction.{is_opening};
ghost use Rattle.paired_tally.specs.Cells.{own_entry};
ghost use Rattle.definitions.specs.Tally.{empty_sum};
ghost use Rattle.paired_tally.specs.Entry.{entry_of, arrows_of, heads_of, ends_of, others_of, is_judged as judged_of};

use definitions::Cell;

/// A row's entry before its cells: that of a judged row in a judged tally, else 0 as it was.
#[inline(always)]
pub fn begin(row: u32, plain: bool, judged: bool, work: &mut [u16])
    requires { row < length work.old }
    ensures here { slice_index work.old row ≡ 0
        → slice_index work.new row ≡ entry_of plain judged empty_sum 0 }
    ensures others { (i : ℕ) → (i ≡ row → ⊥) → slice_index work.new i ≡ slice_index work.old i }
    ensures same_size { length work.new ≡ length work.old }
{
    if !plain & judged {
        work[row as usize] = 8192;
    }
}

// With a cell more of a plain tally's row.
#[inline(always)]
fn with_plain(entry: u16, cell: Cell) -> u16
    requires entry_low { entry ≤ 15018 }
    requires no_head { is_opening (hold_effect cell) ≡ false }
    ensures { (judged : Bool) → result ≡ own_entry true judged cell entry }
{
    match cell {
        Cell::Tap | Cell::Hold | Cell::Roll => entry + 1,
        Cell::Tail => entry + 256,
        Cell::Empty
        | Cell::Mine
        | Cell::Lift
        | Cell::Fake
        | Cell::KeySound
        | Cell::LowerMine
        | Cell::LowerLift
        | Cell::LowerFake => entry,
    }
}

// With a cell more of a judged row.
#[inline(always)]
fn with_judged(entry: u16, cell: Cell) -> u16
    requires entry_low { entry ≤ 15018 }
    ensures { result ≡ own_entry false true cell entry }
{
    match cell {
        Cell::Tap | Cell::Hold | Cell::Roll | Cell::Lift | Cell::LowerLift => entry + 1,
        Cell::Mine | Cell::Fake | Cell::LowerMine | Cell::LowerFake => entry | 4096,
        Cell::Empty | Cell::Tail | Cell::KeySound => entry,
    }
}

/// With a cell more that is no head, of a plain tally's row, of a judged or of an unjudged one.
#[inline(always)]
pub fn with_cell(entry: u16, cell: Cell, plain: bool, judged: bool) -> u16
    requires entry_low { entry ≤ 15018 }
    requires no_head { is_opening (hold_effect cell) ≡ false }
    ensures { result ≡ own_entry plain judged cell entry }
{
    if plain {
        return with_plain(entry, cell);
    }
    if judged {
        return with_judged(entry, cell);
    }
    entry
}

/// The arrows of a row.
pub fn arrows(entry: u16) -> u32
    ensures { result ≡ arrows_of entry }
{
    u32::from(entry % 16)
}

/// The paired heads of a row.
pub fn heads(entry: u16) -> u32
    ensures { result ≡ heads_of entry }
{
    u32::from(entry / 16 % 16)
}

/// The tails of a row of a plain tally; in a judged one the pairs with a judged head that end there.
pub fn ends(entry: u16) -> u32
    ensures { result ≡ ends_of entry }
{
    u32::from(entry / 256 % 16)
}

/// 1 where a judged row has a mine or fake.
pub fn others(entry: u16) -> u32
    ensures { result ≡ others_of entry }
{
    u32::from(entry / 4096 % 2)
}

/// Whether a row is judged.
pub fn is_judged(entry: u16) -> bool
    ensures { result ≡ judged_of entry }
{
    entry / 8192 == 1
}
