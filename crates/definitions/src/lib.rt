// The types that the specification speaks of. The definitions over them are in specs/, in its order, and their laws in proofs/.
#![tactic(auto)]

mod lane_count;

ghost use Rattle.std.specs.Prelude.{◌≡◌};
ghost use Rattle.definitions.specs.Refusals.{number_of, cause_of, words_of};

pub use lane_count::{Lanes, direction};
use std::error::Error;
use std::fmt;

/// The longest text that is accepted, in bytes.
pub const MOST_BYTES: usize = 16777215;

/// Numbers of rows and tail rows stay below this.
pub const ROW_NUMBERS_BOUND: u32 = 16777216;

/// The rows of a text that is accepted are fewer than this.
pub const ROWS_BOUND: u32 = 4194304;

/// The number of its last measure is at most this.
pub const MEASURES_BOUND: u32 = 8388608;

/// What a line is to the reader: passed over, the end of a measure, the end of the reading, or a row.
#[derive(Clone, Copy)]
pub enum LineKind {
    Passed,
    Comma,
    Semi,
    Row,
}

/// What a byte of a row stands for. The Rust also reads m, l and f, which count as M, L and F only where the specification says so (Cells).
#[derive(Clone, Copy)]
pub enum Cell {
    Empty,
    Tap,
    Hold,
    Tail,
    Roll,
    Mine,
    Lift,
    Fake,
    KeySound,
    LowerMine,
    LowerLift,
    LowerFake,
}

/// What a cell does to the holds of its column: to the tracker's stack, the phantom depth and the object depth.
#[derive(Clone, Copy)]
pub enum DepthEffect {
    Nothing,
    Blocks,
    Opens,
    Closes,
}

/// A note's kind.
#[derive(Clone, Copy)]
pub enum Kind {
    Tap,
    Hold,
    Roll,
    Mine,
    Lift,
    Fake,
}

/// A note's tail: none, or the row at which it stands.
#[derive(Clone, Copy)]
pub enum Tail {
    Without,
    Row(u32),
}

/// A typed note. Rows are numbered through all minimised rows of the chart.
#[derive(Clone, Copy)]
pub struct Note {
    pub row: u32,
    pub tail: Tail,
    pub column: u32,
    pub kind: Kind,
}

/// A press of a panel in a trace. Rows are numbered as those of notes are.
#[derive(Clone, Copy)]
pub struct Press {
    pub row: u32,
    pub column: u32,
}

/// What a cell does to the notes: nothing, close the open head of its column, or drop it and be a note or a head itself.
#[derive(Clone, Copy)]
pub enum NoteEffect {
    Nothing,
    Closes,
    Single(Kind),
    Head(Kind),
}

/// Why a head has no note: another head of its column, or another cell, stands at that row before a tail, or the chart ends.
#[derive(Clone, Copy)]
pub enum DropCause {
    OtherHead(u32),
    OtherCell(u32),
    ChartEnd,
}

/// What becomes of a head: a tail at that row closes it, or it is dropped.
#[derive(Clone, Copy)]
pub enum Fate {
    ClosedAt(u32),
    DroppedBy(DropCause),
}

/// A head that has no note. Rows are numbered through all minimised rows of the chart.
#[derive(Clone, Copy)]
pub struct DroppedHead {
    pub row: u32,
    pub column: u32,
    pub cause: DropCause,
}

/// What one row adds to a tally. `arrows` counts the row's arrows; `left`, `down`, `up`, `right`, `up_left` and `up_right` those of each direction.
#[derive(Clone, Copy, Default)]
pub struct RowSum {
    pub arrows: u32,
    pub left: u32,
    pub down: u32,
    pub up: u32,
    pub right: u32,
    pub holds: u32,
    pub rolls: u32,
    pub tails: u32,
    pub mines: u32,
    pub lifts: u32,
    pub fakes: u32,
    pub keysounds: u32,
    pub up_left: u32,
    pub up_right: u32,
}

/// The tally, with the fields of the Rust's `ArrowStats` in their order, and then the keysounds and two directions, which the Rust does not count.
#[derive(Clone, Copy, Default)]
pub struct ArrowStats {
    pub total_arrows: u32,
    pub left: u32,
    pub down: u32,
    pub up: u32,
    pub right: u32,
    pub total_steps: u32,
    pub jumps: u32,
    pub hands: u32,
    pub mines: u32,
    pub holds: u32,
    pub rolls: u32,
    pub lifts: u32,
    pub fakes: u32,
    pub holding: u32,
    pub keysounds: u32,
    pub up_left: u32,
    pub up_right: u32,
}

/// Why a call is refused (Specification, Refusals). Printed, a refusal says what is wrong and who caused it.
#[derive(Clone, Copy, PartialEq, Eq, Debug)]
pub enum Refusal {
    LongText = 1,
    ShortText = 2,
    ShortMeasures = 3,
    ShortBeats = 4,
    ShortWork = 5,
    ShortNotes = 6,
    NoRecord = 7,
    BadRecord = 8,
    FewFields = 9,
    OtherType = 10,
    NoChart = 11,
    OtherLanes = 12,
    OutOfOrder = 13,
    NotesMeet = 14,
    OtherCounts = 15,
    BadTrace = 16,
    ShortSheet = 19,
    OtherForm = 20,
}

impl Refusal {
    /// The number that is returned outside.
    pub fn number(self) -> u32
        ensures { result ≡ number_of self }
    {
        self as u32
    }

    /// Whose mistake it is.
    pub fn caused_by(self) -> &'static str
        ensures { result.now ≡ cause_of self }
    {
        match self {
            Refusal::LongText
            | Refusal::ShortText
            | Refusal::ShortMeasures
            | Refusal::ShortBeats
            | Refusal::ShortWork
            | Refusal::ShortNotes
            | Refusal::ShortSheet
            | Refusal::OtherForm => "whoever wires up the call",
            Refusal::NoRecord | Refusal::BadRecord => "whoever stores note records",
            Refusal::FewFields | Refusal::OtherType => "whoever writes the SM file",
            Refusal::NoChart => "whoever asks for the chart",
            Refusal::OtherLanes => "whoever gives the lane number",
            Refusal::OutOfOrder | Refusal::NotesMeet => "whoever edits the notes",
            Refusal::OtherCounts => "whoever counts the rows",
            Refusal::BadTrace => "whoever records the trace",
        }
    }

    /// What is wrong. len is the text's length in bytes, L the lane count, R the most rows that such a text can hold.
    pub fn words(self) -> &'static str
        ensures { result.now ≡ words_of self }
    {
        match self {
            Refusal::LongText =>
                "the text or file, or the text to be written, is longer than the call takes",
            Refusal::ShortText => "the text slice is shorter than the call needs",
            Refusal::ShortMeasures => "the measure slice is shorter than the call needs",
            Refusal::ShortBeats => "the beat slice is shorter than R",
            Refusal::ShortWork => "the work slice is shorter than R",
            Refusal::ShortNotes => "the note slice is shorter than 10 * L * R",
            Refusal::NoRecord =>
                "the records end in part of a record, or there is none of that number",
            Refusal::BadRecord => "a record breaks a limit",
            Refusal::FewFields => "the block has fewer than five fields",
            Refusal::OtherType => "the chart has another type name",
            Refusal::NoChart => "the file has no such block",
            Refusal::OtherLanes => "the lane number is none of 4, 5, 6, 8 and 10",
            Refusal::OutOfOrder =>
                "a note does not stand before the next, or its column is not below L",
            Refusal::NotesMeet => "two notes of a column meet",
            Refusal::OtherCounts =>
                "the row counts are not those of the notes, or a measure could be minimised",
            Refusal::BadTrace =>
                "the trace has part of a press, a column over 9, or a press that falls",
            Refusal::ShortSheet => "the sheet slice is shorter than 42 * (len + 1) + 3000",
            Refusal::OtherForm => "the form's number is over 2",
        }
    }
}

impl fmt::Display for Refusal {
    ghost use Rattle.std.specs.Prelude.{Some};
    ghost use Rattle.definitions.specs.Refusals.{refusal_text};

    ghost output = { λ refusal. Some (refusal_text refusal) };

    fn fmt<W: fmt::Write>(&self, f: &mut fmt::Formatter<W>) -> fmt::Result {
        write!(f, "{}, by {}", self.words(), self.caused_by())
    }
}

impl Error for Refusal {}

/// What the main call answers beside its slices: bytes of the minimised text, measures, minimised rows, note records, the last beat as the
/// bits of its float and in 48ths, and the tally.
#[derive(Clone, Copy)]
pub struct ChartFigures {
    pub bytes: usize,
    pub measures: usize,
    pub rows: u32,
    pub notes: usize,
    pub last_bits: u64,
    pub last_row: u64,
    pub stats: ArrowStats,
}

/// What the kept-row call answers: bytes of the minimised text, measures, minimised rows, and the tally.
#[derive(Clone, Copy)]
pub struct KeptFigures {
    pub bytes: usize,
    pub measures: usize,
    pub rows: u32,
    pub stats: ArrowStats,
}

/// What the list of dropped heads answers: bytes of the minimised text, measures, minimised rows, and the heads in the list.
#[derive(Clone, Copy)]
pub struct DroppedFigures {
    pub bytes: usize,
    pub measures: usize,
    pub rows: u32,
    pub heads: usize,
}

/// What `minimize_timing_rows` answers: bytes and rows written and whether any of them has a 2 or 4.
#[derive(Clone, Copy)]
pub struct TimingFigures {
    pub bytes: usize,
    pub rows: usize,
    pub heads: bool,
}

/// What writing a chart answers: bytes of the text, measures, rows, and the note records that were read.
#[derive(Clone, Copy)]
pub struct WrittenFigures {
    pub bytes: usize,
    pub measures: usize,
    pub rows: u32,
    pub records: usize,
}

/// A last beat: its float, the bits of that, and in 48ths.
#[derive(Clone, Copy)]
pub struct LastBeat {
    pub beat: f64,
    pub bits: u64,
    pub row: u64,
}
