// Row beats and the last beat (Specification, Row beats and Last beat). `mul_add` and `round_ties_even` are worked out here by
// whole numbers and by float operations that are exact but for the last.
#![tactic(auto)]

ghost use Rattle.std.specs.Prelude.{◌≡◌, ℕ, ◌+◌, ◌*◌, ◌^◌, ◌<◌, ◌≤◌, false, length, to_bits};
ghost use Rattle.std.specs.Float.{binary32, binary64};
ghost use Rattle.std.specs.Float.Ieee.{round};
ghost use Rattle.std.specs.Float.Ieee.Exact.{HasValue};
ghost use Rattle.definitions.specs.Sizes.{measures_bound, row_count_bound};
ghost use Rattle.definitions.specs.Beats.{step, beat_of_row, whole, last_row, row_to_beat};
ghost use Rattle.definitions.specs.Objects.{place48};
ghost use Rattle.beats.specs.Places.{Inside, place_of, Placed};
ghost use Rattle.beats.specs.Upto.{Upto};
ghost use Rattle.beats.specs.Even.{exact_bound, IsUnits, EvenStep};
ghost use Rattle.beats.specs.RowBeats.{with_row_beats};

// 2^-43, of which every step is a whole number.
const FINE: f32 = 1.1368683772161603e-13;

// 2^-21, with 20 digits of a beat's fraction and one more.
const COARSE: f32 = 4.76837158203125e-7;

// Every whole number up to this is a float exactly.
const EXACT_BOUND: u64 = 16777216;

// ---- Row beats

// The step 4 / n, an f32, in units of 2^-43.
fn step_units(n: u32) -> u64
    requires some { 0 < n }
    requires rows_few { n < row_count_bound }
    ensures value { IsUnits (step n) result }
    ensures few { result * n < 2 ^ 46 }
{
    let x: f32 = 4.0 / (n as f32);
    std::num::truncating_f32_to_u64(x * 8796093022208.0)
}

// x units, rounded once, for a unit of 2^-k: both halves are floats exactly, so that only the sum rounds.
fn rounded(x: u64, unit: f32) -> f32
    requires { x < 2 ^ 48 }
    ensures { (k : ℕ) → k ≤ 43 → HasValue unit false 1 (2 ^ k)
        → result ≡ round binary32 false x (2 ^ k) }
{
    ((x >> 24) as f32) * (unit * 16777216.0) + ((x % 16777216) as f32) * unit
}

// r × s + 4 × m, with s in units of 2^-43, worked out exactly and rounded once. From m = 4 on the exact number takes up to
// 69 binary digits. A float keeps 24, so after the 25th it is enough to know whether any digit is not 0: one more digit says so.
fn mul_add(r: u32, s: u64, m: u32) -> f32
    requires few { r * s < 2 ^ 46 }
    requires measures_few { m ≤ measures_bound }
    ensures { result ≡ round binary32 false (r * s + 4 * m * 2 ^ 43) (2 ^ 43) }
{
    let p = (r as u64) * s;
    if m < 4 {
        return rounded((m as u64) * 35184372088832 + p, FINE);
    }
    // 20 digits of the fraction, after 5 or more before it
    let q = (m as u64) * 4194304 + (p >> 23);
    if p % 8388608 == 0 {
        return rounded(q * 2, COARSE);
    }
    rounded(q * 2 + 1, COARSE)
}

/// The beat of row r of n in measure m.
pub fn row_beat(m: u32, r: u32, n: u32) -> f32
    requires { Inside m r n }
    ensures { result ≡ beat_of_row m r n }
{
    let s = step_units(n);
    mul_add(r, s, m)
}

// The step 4 / n.
fn step_of(n: u32) -> f32
    requires { n < row_count_bound }
    ensures { result ≡ step n }
{
    4.0 / (n as f32)
}

// k steps: both factors are floats exactly, so that only the product rounds.
fn steps_beat(k: u32, step: f32) -> f32
    requires { k < exact_bound }
    ensures { (s : ℕ) → IsUnits step s → result ≡ round binary32 false (k * s) (2 ^ 43) }
{
    (k as f32) * step
}

// The beats of a measure whose rows are an even part of 4 beats: row r stands `midx` × `rows` + r steps after beat 0.
fn append_steps(beats: &mut [f32], at: usize, midx: u32, rows: u32)
    requires beats_room { at + rows ≤ length beats.old }
    requires rows_few { rows < row_count_bound }
    requires exact { midx * rows + rows ≤ exact_bound }
    requires even { EvenStep rows }
    ensures { beats.new ≡ with_row_beats at midx rows beats.old }
{
    let step = step_of(rows);
    let first = midx * rows;
    for r in 0..rows {
        beats[at + (r as usize)] = steps_beat(first + r, step);
    }
}

// The beats of any measure's rows, by the step in units of 2^-43.
fn append_rounded(beats: &mut [f32], at: usize, midx: u32, rows: u32, s: u64)
    requires beats_room { at + rows ≤ length beats.old }
    requires measures_few { midx ≤ measures_bound }
    requires step_is { IsUnits (step rows) s }
    requires few { s * rows < 2 ^ 46 }
    ensures { beats.new ≡ with_row_beats at midx rows beats.old }
{
    for r in 0..rows {
        beats[at + (r as usize)] = mul_add(r, s, midx);
    }
}

/// The beats of the rows of measure `midx`, written from place `at` on. The step is worked out once a measure. Where its rows, as most do,
/// divide 4 beats evenly and their numbers are floats exactly, each beat is one product.
pub fn append_row_beats(beats: &mut [f32], at: usize, midx: u32, rows: u32)
    requires beats_room { at + rows ≤ length beats.old }
    requires rows_few { rows < row_count_bound }
    requires measures_few { midx ≤ measures_bound }
    ensures { beats.new ≡ with_row_beats at midx rows beats.old }
{
    if rows == 0 {
        return;
    }
    let s = step_units(rows);
    if s * (rows as u64) == 35184372088832 {
        if (midx as u64) * (rows as u64) + (rows as u64) <= EXACT_BOUND {
            append_steps(beats, at, midx, rows);
            return;
        }
    }
    append_rounded(beats, at, midx, rows, s);
}

// ---- The last beat

// The whole number nearest to x, at a tie the even one.
fn lrint_f64(x: f64) -> u64
    requires { Upto x (2 ^ 38) }
    ensures value { result ≡ whole x }
    ensures few { result ≤ 2 ^ 39 }
{
    let w = std::num::truncating_f64_to_u64(x);
    let half = (w as f64) + 0.5;
    if x < half {
        return w;
    }
    if half < x {
        return w + 1;
    }
    w + w % 2
}

/// The beat of row r of n in measure m, in 48ths: worked out in f64, and rounded.
pub fn beat_to_note_row(m: u32, r: u32, n: u32) -> u64
    requires { Inside m r n }
    ensures value { result ≡ last_row m r n }
    ensures few { result ≤ 2 ^ 39 }
{
    let beat = (m as f64) * 4.0 + 4.0 * (r as f64) / (n as f64);
    lrint_f64(beat * 48.0)
}

/// 48ths of a beat as beats.
pub fn note_row_to_beat(row: u64) -> f64
    requires { row ≤ 2 ^ 39 }
    ensures { result ≡ row_to_beat row }
{
    (row as f64) / 48.0
}

/// A row by its place: its measure, its number in it, and the rows of that measure.
#[derive(Clone, Copy)]
pub struct RowPlace {
    pub measure: u32,
    pub row: u32,
    pub rows: u32,
}

/// The last beat in 48ths, by the last object row, if there is one.
pub fn last_note_row(last: Option<RowPlace>) -> u64
    requires { Placed last }
    ensures value { result ≡ place48 (place_of last) }
    ensures few { result ≤ 2 ^ 39 }
{
    match last {
        None => 0,
        Some(at) => beat_to_note_row(at.measure, at.row, at.rows),
    }
}

/// The last beat.
pub fn calc_last_beat(last: Option<RowPlace>) -> f64
    requires { Placed last }
    ensures { result ≡ row_to_beat (place48 (place_of last)) }
{
    note_row_to_beat(last_note_row(last))
}

/// The last beat's bits.
pub fn last_beat_bits(last: Option<RowPlace>) -> u64
    requires { Placed last }
    ensures { result ≡ to_bits binary64 (row_to_beat (place48 (place_of last))) }
{
    f64::to_bits(calc_last_beat(last))
}
