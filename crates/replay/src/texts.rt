// The calls on a text, and which of them answer a record otherwise than it is stored.
use crate::{Compared, agreements};
use stored::Record;

/// A call on a text. Their order is that of the stored answers.
#[derive(Clone, Copy)]
pub enum Call {
    Main,
    Kept,
    TimingRows,
    Densities,
    Spacing,
    LastBeat,
    Judged,
    Flagged,
    Dropped,
    Written,
    Pressed,
}

impl Call {
    // Whether it answers the record's text as it is stored.
    fn agrees(self, record: &Record) -> bool {
        let answers = &record.answers;
        match self {
            Call::Main => agreements::main_agrees(record, &answers.main),
            Call::Kept => agreements::kept_agrees(record, &answers.kept),
            Call::TimingRows => agreements::timing_rows_agree(record, &answers.timing_rows),
            Call::Densities => agreements::densities_agree(record, &answers.densities),
            Call::Spacing => agreements::spacing_agrees(record, &answers.spacing),
            Call::LastBeat => agreements::last_beat_agrees(record, &answers.last_beat),
            Call::Judged => agreements::judged_agrees(record, &answers.judged),
            Call::Flagged => agreements::flagged_agrees(record, &answers.flagged),
            Call::Dropped => agreements::dropped_agrees(record, &answers.dropped),
            Call::Written => agreements::written_agrees(record, &answers.written),
            Call::Pressed => agreements::pressed_agrees(&answers.pressed),
        }
    }
}

/// How the answers of these calls compare.
pub fn compared(record: &[u8], calls: &[Call]) -> Compared {
    let Some(record) = Record::read(record) else {
        return Compared::Malformed;
    };
    match calls.iter().find(|call| !call.agrees(&record)) {
        None => Compared::Agree(calls.len()),
        Some(call) => Compared::Differs(*call as usize),
    }
}
