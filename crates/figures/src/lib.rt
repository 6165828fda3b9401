// The figures that an entry leaves, each in its place: 32 for a call on a text, 4 for a note, 3 for a chart of a file. What a call does not answer
// is 0.
#![tactic(auto)]

ghost use Rattle.std.specs.Prelude.{◌≡◌, [], ◌∷◌};
ghost use Rattle.definitions.specs.Entries.{figures as stored_figures, figures_of_note, places_of_chart, places_of_kept, places_of_dropped, places_of_written, places_of_timing, places_of_measures, places_of_last, places_of_judged};
ghost use Rattle.definitions.specs.Lists.{number_of_bool};
ghost use Rattle.definitions.specs.Records.{number_of_tail};
ghost use Rattle.definitions.specs.Tally.{tally_figures};
ghost use Rattle.definitions.specs.Refusals.{number_told, replaces};

use definitions::{
    ArrowStats, ChartFigures, DroppedFigures, KeptFigures, LastBeat, Note, Refusal, Tail,
    TimingFigures, WrittenFigures,
};
use note_records::{NO_TAIL_ROW, kind_number};

// The figures of a call on a text; what it does not answer is 0.
#[derive(Clone, Copy, Default)]
struct Places {
    bytes: usize,
    measures: usize,
    rows: usize,
    records: usize,
    last_bits: u64,
    heads: bool,
    last_row: u64,
    stats: ArrowStats,
}

impl Places {
    // The 32 numbers: the figures, the last beat by its bits and in 48ths, and from place 8 on the tally in the order of its fields.
    fn numbers(self) -> [u64; 32]
        ensures { result ≡ stored_figures self.bytes self.measures self.rows self.records
            self.last_bits (number_of_bool self.heads) self.last_row (tally_figures self.stats) }
    {
        let t = self.stats;
        [
            self.bytes as u64,
            self.measures as u64,
            self.rows as u64,
            self.records as u64,
            self.last_bits,
            u64::from(self.heads),
            self.last_row,
            0,
            u64::from(t.total_arrows),
            u64::from(t.left),
            u64::from(t.down),
            u64::from(t.up),
            u64::from(t.right),
            u64::from(t.total_steps),
            u64::from(t.jumps),
            u64::from(t.hands),
            u64::from(t.mines),
            u64::from(t.holds),
            u64::from(t.rolls),
            u64::from(t.lifts),
            u64::from(t.fakes),
            u64::from(t.holding),
            u64::from(t.keysounds),
            u64::from(t.up_left),
            u64::from(t.up_right),
            0,
            0,
            0,
            0,
            0,
            0,
            0,
        ]
    }
}

// A tail as the number of its row.
fn tail_number(tail: Tail) -> u32
    ensures { result ≡ number_of_tail tail }
{
    match tail {
        Tail::Without => NO_TAIL_ROW,
        Tail::Row(row) => row,
    }
}

/// What a call answers, as an entry leaves it: in N places.
pub trait Figures<const N: usize> {
    ghost use Rattle.std.specs.Prelude.{List, ℕ};

    ghost places: { Self → List ℕ };

    fn places(self) -> [u64; N]
        ensures { result ≡ places self };
}

impl Figures<32> for ChartFigures {
    ghost places = { places_of_chart };

    fn places(self) -> [u64; 32] {
        let places = Places {
            bytes: self.bytes,
            measures: self.measures,
            rows: self.rows as usize,
            records: self.notes,
            last_bits: self.last_bits,
            last_row: self.last_row,
            stats: self.stats,
            ..Places::default()
        };
        places.numbers()
    }
}

impl Figures<32> for KeptFigures {
    ghost places = { places_of_kept };

    fn places(self) -> [u64; 32] {
        let places = Places {
            bytes: self.bytes,
            measures: self.measures,
            rows: self.rows as usize,
            stats: self.stats,
            ..Places::default()
        };
        places.numbers()
    }
}

impl Figures<32> for DroppedFigures {
    ghost places = { places_of_dropped };

    fn places(self) -> [u64; 32] {
        let places = Places {
            bytes: self.bytes,
            measures: self.measures,
            rows: self.rows as usize,
            records: self.heads,
            ..Places::default()
        };
        places.numbers()
    }
}

impl Figures<32> for WrittenFigures {
    ghost places = { places_of_written };

    fn places(self) -> [u64; 32] {
        let places = Places {
            bytes: self.bytes,
            measures: self.measures,
            rows: self.rows as usize,
            records: self.records,
            ..Places::default()
        };
        places.numbers()
    }
}

impl Figures<32> for TimingFigures {
    ghost places = { places_of_timing };

    fn places(self) -> [u64; 32] {
        let places = Places {
            bytes: self.bytes,
            rows: self.rows,
            heads: self.heads,
            ..Places::default()
        };
        places.numbers()
    }
}

/// How many measures there are.
impl Figures<32> for usize {
    ghost places = { places_of_measures };

    fn places(self) -> [u64; 32] {
        let places = Places {
            measures: self,
            ..Places::default()
        };
        places.numbers()
    }
}

impl Figures<32> for LastBeat {
    ghost places = { places_of_last };

    fn places(self) -> [u64; 32] {
        let places = Places {
            last_bits: self.bits,
            last_row: self.row,
            ..Places::default()
        };
        places.numbers()
    }
}

/// A judged tally.
impl Figures<32> for ArrowStats {
    ghost places = { places_of_judged };

    fn places(self) -> [u64; 32] {
        let places = Places {
            stats: self,
            ..Places::default()
        };
        places.numbers()
    }
}

/// Figures that stand in their places already.
impl Figures<32> for [u64; 32] {
    ghost places = { λ f. f };

    fn places(self) -> [u64; 32] {
        self
    }
}

/// The 23 places of a pad trace, which it is answered in.
impl Figures<23> for [u64; 23] {
    ghost places = { λ f. f };

    fn places(self) -> [u64; 23] {
        self
    }
}

/// The four places of a note.
impl Figures<4> for Note {
    ghost places = { figures_of_note };

    fn places(self) -> [u64; 4] {
        [
            u64::from(self.row),
            u64::from(tail_number(self.tail)),
            u64::from(self.column),
            u64::from(kind_number(self.kind)),
        ]
    }
}

/// What an entry returns of a call's answer, and leaves in its figures: a refusal leaves them as they were.
pub fn tell<const N: usize, F: Figures<N>>(
    answer: Result<F, Refusal>,
    figures: &mut [u64; N],
) -> u32
    ensures value { result ≡ number_told answer }
    ensures figures_after { figures.new ≡ replaces answer F.places figures.old }
{
    match answer {
        Err(refusal) => refusal.number(),
        Ok(answer) => {
            *figures = answer.places();
            0
        }
    }
}

/// The three places of a chart of a file: its lane count, where its data begins, and the data's length.
pub fn sm_chart_places(lanes: usize, start: usize, len: usize) -> [u64; 3]
    ensures { result ≡ lanes ∷ start ∷ len ∷ [] }
{
    [lanes as u64, start as u64, len as u64]
}
