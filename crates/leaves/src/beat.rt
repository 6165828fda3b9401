// Row beats and the last beat, of rows within the limits of an accepted text. A call returns 0, or 1 where it is not taken.
ghost use Rattle.std.specs.Prelude.{◌≡◌};
ghost use Rattle.beats.specs.Places.{place_of, Placed};
ghost use Rattle.leaves.specs.Answers.{measure_fits, row_fits, beat_number, beat_left, beats_fit, beats_number, beats_left, last_number, numbers_of_last, last_left};

use beats::RowPlace;

#[tactic(auto, unfolding(crate::specs::Answers::measure_fits))]
fn measure_taken(m: u32, n: u32) -> bool
    ensures { result ≡ measure_fits m n }
{
    m <= definitions::MEASURES_BOUND && n < definitions::ROWS_BOUND
}

#[tactic(auto, unfolding(crate::specs::Answers::row_fits))]
fn row_taken(m: u32, r: u32, n: u32) -> bool
    ensures { result ≡ row_fits m r n }
{
    r < n && measure_taken(m, n)
}

/// The beat of row r of n in measure m as an f32. It answers 0, or 1 where no accepted text has such a row, and then writes nothing.
#[tactic(auto, unfolding(crate::specs::Answers::measure_fits, crate::specs::Answers::row_fits, crate::specs::Answers::beat_number, crate::specs::Answers::beat_left))]
#[unsafe(no_mangle)]
pub extern "C" fn leaves_row_beat(m: u32, r: u32, n: u32, beat: &mut [f32; 1]) -> u32
    ensures value { result ≡ beat_number m r n }
    ensures beat_after { beat.new ≡ beat_left m r n beat.old }
{
    if row_taken(m, r, n) {
        *beat = [beats::row_beat(m, r, n)];
        return 0;
    }
    1
}

// Whether the beats of a measure have room in `len` places from `at` on.
#[tactic(auto, unfolding(crate::specs::Answers::beats_fit))]
fn beats_taken(len: usize, at: usize, m: u32, n: u32) -> bool
    ensures { result ≡ beats_fit len at m n }
{
    at <= len && n as usize <= len - at && measure_taken(m, n)
}

/// The beats of the rows of a measure, from place `at` on. It answers 0, or 1 where they have no room or no accepted text has such a measure, and then
/// writes nothing.
#[tactic(auto, unfolding(crate::specs::Answers::measure_fits, crate::specs::Answers::beats_fit, crate::specs::Answers::beats_number, crate::specs::Answers::beats_left))]
#[unsafe(no_mangle)]
pub extern "C" fn leaves_append_row_beats(beats: &mut [f32], at: usize, midx: u32, rows: u32) -> u32
    ensures value { result ≡ beats_number beats.old at midx rows }
    ensures beats_after { beats.new ≡ beats_left beats.old at midx rows }
{
    if beats_taken(beats.len(), at, midx, rows) {
        beats::append_row_beats(beats, at, midx, rows);
        return 0;
    }
    1
}

// The last beat's bits, and the last beat in 48ths.
fn last_numbers(last: Option<RowPlace>) -> [u64; 2]
    requires { Placed last }
    ensures { result ≡ numbers_of_last (place_of last) }
{
    [beats::last_beat_bits(last), beats::last_note_row(last)]
}

/// The bits and the 48ths of the last beat where row r of n in measure m is the last object row, of no object row where `n` is 0. It answers 0, or 1
/// where no accepted text has such a row, and then writes nothing.
#[tactic(auto, unfolding(crate::specs::Answers::measure_fits, crate::specs::Answers::row_fits, crate::specs::Answers::last_place, crate::specs::Answers::last_fits, crate::specs::Answers::last_number, crate::specs::Answers::last_left))]
#[unsafe(no_mangle)]
pub extern "C" fn leaves_calc_last_beat(m: u32, r: u32, n: u32, last: &mut [u64; 2]) -> u32
    ensures value { result ≡ last_number m r n }
    ensures last_after { last.new ≡ last_left m r n last.old }
{
    if n == 0 {
        *last = last_numbers(None);
        return 0;
    }
    if row_taken(m, r, n) {
        *last = last_numbers(Some(RowPlace {
            measure: m,
            row: r,
            rows: n,
        }));
        return 0;
    }
    1
}
