// One row of the main call's walk that is not ordinary: its cells, one after the other.
#![tactic(auto)]

pub mod cell_walk;
pub mod columns;

ghost use Rattle.std.specs.Prelude.{◌≡◌, ◌+◌, ◌≤◌, ◌<◌, length};
ghost use Rattle.row_walk.specs.Rows.{CellsReady, RowWalked, Reached, WalkedOn};

use crate::cell_walk::Run;

// The cell in a column. Most bytes of a chart are `0`, which changes nothing.
#[inline(always)]
fn walk_column(run: &mut Run, row: &[u8], column: usize, slots: &mut [u8])
    requires inside { column < length row.now }
    requires reached { Reached row.now column run.old slots.old }
    ensures { WalkedOn row.now column run.old slots.old (column + 1) run.new slots.new }
{
    let b = row[column];
    if b == b'0' {
        return;
    }
    run.walk_cell(row.len(), column, b, slots);
}

// The cells of the first four columns. Cells are written one by one, which costs less than a loop.
#[inline(always)]
#[tactic(auto, using(crate::proofs::Rows::reached_on))]
fn walk_four(run: &mut Run, row: &[u8], slots: &mut [u8])
    requires wide { 4 ≤ length row.now }
    requires reached { Reached row.now 0 run.old slots.old }
    ensures { WalkedOn row.now 0 run.old slots.old 4 run.new slots.new }
{
    walk_column(run, row, 0, slots);
    walk_column(run, row, 1, slots);
    walk_column(run, row, 2, slots);
    walk_column(run, row, 3, slots);
}

// The cells of a row from its fifth on. No row has seven or nine.
#[inline(always)]
#[tactic(auto, using(crate::proofs::Rows::reached_on))]
fn walk_rest(run: &mut Run, row: &[u8], slots: &mut [u8])
    requires wide { 4 ≤ length row.now }
    requires narrow { length row.now ≤ 10 }
    requires gaps { (length row.now ≡ 7 → ⊥) × (length row.now ≡ 9 → ⊥) }
    requires reached { Reached row.now 4 run.old slots.old }
    ensures { WalkedOn row.now 4 run.old slots.old (length row.now) run.new slots.new }
{
    if row.len() == 4 {
        return;
    }
    walk_column(run, row, 4, slots);
    if row.len() == 5 {
        return;
    }
    walk_column(run, row, 5, slots);
    if row.len() == 6 {
        return;
    }
    walk_column(run, row, 6, slots);
    walk_column(run, row, 7, slots);
    if row.len() == 8 {
        return;
    }
    walk_column(run, row, 8, slots);
    walk_column(run, row, 9, slots);
}

/// One row by its cells.
#[inline(always)]
pub fn walk_cells(run: &mut Run, row: &[u8], slots: &mut [u8])
    requires ready { CellsReady row.now run.old slots.old }
    requires wide { 4 ≤ length row.now }
    requires gaps { (length row.now ≡ 7 → ⊥) × (length row.now ≡ 9 → ⊥) }
    ensures { RowWalked row.now run.old slots.old run.new slots.new }
{
    let arrows = run.stats.total_arrows;
    let heads = run.columns.phantoms.heads;
    let tails = run.columns.phantoms.tails;
    walk_four(run, row, slots);
    walk_rest(run, row, slots);
    run.end_row(arrows, heads, tails);
}
