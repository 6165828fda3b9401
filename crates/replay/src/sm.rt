// A file's stored answers: for each a block's number, the number that is answered, and the three places of the chart, which held 165 each before.
use crate::Compared;
use compare::same_longs;
use figures::sm_chart_places;
use files::sm::sm_chart;
use stored::{bytes, lent, long, number};

// Bytes of an answer: five numbers of eight.
const ANSWER: usize = 40;

// Whether the block is answered as it is stored. A refused call leaves the places as they were.
fn agrees(file: &[u8], answer: &[u8; ANSWER]) -> bool {
    let mut rest: &[u8] = answer;
    let Some(k) = long(&mut rest) else {
        return false;
    };
    let [lanes, start, len] = lent::chart();
    let answered = match sm_chart(file, k as usize) {
        Err(refusal) => [u64::from(refusal.number()), lanes, start, len],
        Ok(chart) => {
            let [lanes, start, len] = sm_chart_places(chart.lanes, chart.start, chart.data.len());
            [0, lanes, start, len]
        }
    };
    same_longs(&answered, rest)
}

// The file of a record, and the bytes of its answers.
fn parts(record: &[u8]) -> Option<(&[u8], &[u8])> {
    let mut rest = record;
    let len = number(&mut rest)?;
    let file = bytes(&mut rest, len)?;
    Some((file, rest))
}

/// How the answers of a record compare. It has at least one.
pub fn compared(record: &[u8]) -> Compared {
    let Some((file, answers)) = parts(record) else {
        return Compared::Malformed;
    };
    let (answers, after) = answers.as_chunks::<ANSWER>();
    if answers.is_empty() || !after.is_empty() {
        return Compared::Malformed;
    }
    match answers.iter().position(|answer| !agrees(file, answer)) {
        None => Compared::Agree(answers.len()),
        Some(call) => Compared::Differs(call),
    }
}
