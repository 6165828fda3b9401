ghost use Rattle.std.specs.Prelude.{◌≡◌, ◌↔◌, ◌+◌, ◌^◌, ◌<◌, ◌≤◌, length, drop, IsSome, IfSome};

use crate::{bytes, figures, number};

/// One stored answer of a call on a text: its figures, and what it left in the slices that it is lent, each of a length that four bytes say.
#[derive(Clone, Copy)]
pub struct Answer<'a> {
    pub figures: &'a [u8; 256],
    pub text: &'a [u8],
    pub measures: &'a [u8],
    pub beats: &'a [u8],
    pub notes: &'a [u8],
    pub ghost lengths: { (length text.now < 2 ^ 32) × (length measures.now < 2 ^ 32) × (length beats.now < 2 ^ 32) × (length notes.now < 2 ^ 32) },
}

impl<'a> Answer<'a> {
    ghost use Rattle.stored.specs.Layout.{Begins, answer_bytes, answer_length};

    /// The answer at the front of `rest`, which keeps what follows it.
    pub fn read(rest: &mut &'a [u8]) -> Option<Answer<'a>>
        ensures value { IfSome result (λ a. Begins rest.old.now (answer_bytes a) rest.new.now) }
        ensures after { IfSome result
            (λ _. rest.new.now ≡ drop (answer_length rest.old.now) rest.old.now) }
        ensures variant { IsSome result ↔ (answer_length rest.old.now ≤ length rest.old.now) }
    {
        let figures = figures(rest)?;
        let text = number(rest)?;
        let measures = number(rest)?;
        let beats = number(rest)?;
        let notes = number(rest)?;
        Some(Answer {
            figures,
            text: bytes(rest, text)?,
            measures: bytes(rest, measures)?,
            beats: bytes(rest, beats)?,
            notes: bytes(rest, notes)?,
        })
    }
}

/// What each call on a text answered, in the order in which they are stored.
#[derive(Clone, Copy)]
pub struct Answers<'a> {
    pub main: Answer<'a>,
    pub kept: Answer<'a>,
    pub timing_rows: Answer<'a>,
    pub densities: Answer<'a>,
    pub spacing: Answer<'a>,
    pub last_beat: Answer<'a>,
    pub judged: Answer<'a>,
    pub flagged: Answer<'a>,
    pub dropped: Answer<'a>,
    pub written: Answer<'a>,
    pub pressed: Answer<'a>,
}

impl<'a> Answers<'a> {
    ghost use Rattle.stored.specs.Layout.{Begins, answers_bytes, answers_length};

    /// The eleven answers at the front of `rest`, which keeps what follows them.
    pub fn read(rest: &mut &'a [u8]) -> Option<Answers<'a>>
        ensures value { IfSome result (λ a. Begins rest.old.now (answers_bytes a) rest.new.now) }
        ensures after { IfSome result (λ _. length rest.old.now
            ≡ answers_length 11 rest.old.now + length rest.new.now) }
        ensures variant { IsSome result ↔ (answers_length 11 rest.old.now ≤ length rest.old.now) }
    {
        Some(Answers {
            main: Answer::read(rest)?,
            kept: Answer::read(rest)?,
            timing_rows: Answer::read(rest)?,
            densities: Answer::read(rest)?,
            spacing: Answer::read(rest)?,
            last_beat: Answer::read(rest)?,
            judged: Answer::read(rest)?,
            flagged: Answer::read(rest)?,
            dropped: Answer::read(rest)?,
            written: Answer::read(rest)?,
            pressed: Answer::read(rest)?,
        })
    }
}
