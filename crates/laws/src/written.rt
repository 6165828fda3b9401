// The main theorems on written charts, and what a reader expects of them, each by the statement alone.

ghost use Rattle.definitions.specs.WrittenBack.{WrittenReadsBack, ReadNotesPass, ComesBackExactly, MeetsAsAsked, WrittenLengthShort};
ghost use Rattle.definitions.specs.WrittenConsequences.{ToldByText, HeadsNoted, FigureIsLength, UneditedAnswered, NothingElseLost, CannotComeBack, MeetsToTheTail, WrittenExamplesCounted};
ghost use Rattle.laws.specs.Examples.{WrittenExamplesHold};

/// Of what the call accepts the written text has these records and row counts, is its own minimised text, and drops no head.
pub fn written_reads_back()
    ensures { WrittenReadsBack }
{}

/// The notes and row counts of every text are refused with 15 at most, and then because a measure could be minimised further.
pub fn read_notes_pass()
    ensures { ReadNotesPass }
{}

/// What is written for a text's notes and row counts is its minimised text exactly if its cells are those that are written, no head is dropped, and
/// each 3 closes a head.
pub fn comes_back_exactly()
    ensures { ComesBackExactly }
{}

/// Two notes of one column meet exactly if a cell is wanted by both or a cell of one is inside the other.
pub fn meets_as_asked()
    ensures { MeetsAsAsked }
{}

/// The text that is to be written for a text's row counts is at most one byte longer than the text.
pub fn written_length_short()
    ensures { WrittenLengthShort }
{}

/// What the examples of written charts say is answered for records and row counts is what the definitions answer.
pub fn written_examples_hold()
    ensures { WrittenExamplesHold }
{}

// What a reader expects of these.

/// Where two written texts have one minimised text, the records that were given are the same and so are the row counts.
pub fn told_by_text()
    ensures { ToldByText }
{}

/// Each head of a written text has one note record.
pub fn heads_noted()
    ensures { HeadsNoted }
{}

/// Figure 0 is the length of the written text, and no call that is given this text answers 1.
pub fn figure_is_length()
    ensures { FigureIsLength }
{}

/// The notes and row counts of a text are accepted, or answered 15 where a measure could be minimised further.
pub fn unedited_answered()
    ensures { UneditedAnswered }
{}

/// Where the cells of a text are those that are written, no head is dropped and each 3 closes a head, its minimised text is written.
pub fn nothing_else_lost()
    ensures { NothingElseLost }
{}

/// A text that comes back has no K, m, l, f nor any other letter, no dropped head, and no 3 that closes nothing.
pub fn cannot_come_back()
    ensures { CannotComeBack }
{}

/// A note at the tail of a hold of its column, or between its head and tail, meets it; one below the tail does not.
pub fn meets_to_the_tail()
    ensures { MeetsToTheTail }
{}

/// The table has 38 examples of written charts.
pub fn written_examples_counted()
    ensures { WrittenExamplesCounted }
{}
