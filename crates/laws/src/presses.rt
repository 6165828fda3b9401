// The main theorems on pad traces, and what a reader expects of them, each by the statement alone.

ghost use Rattle.definitions.specs.PressClaims.{PressesCounted, NotesAreCounted, ColumnsAreCounted, CleanTrace, TraceIsCounted};
ghost use Rattle.definitions.specs.PressConsequences.{HitsArePresses, ShortTraceMisses, UnplayedColumns, OnePressEach, OneTracePasses, TenColumns, WhatPasses, OneEachPasses, PressExamplesCounted};
ghost use Rattle.laws.specs.Examples.{PressExamplesHold};

/// Hits and strays together are as many as the presses.
pub fn presses_counted()
    ensures { PressesCounted }
{}

/// Where each note stands before the next, hits and misses together are as many as the played notes, and in each column too.
pub fn notes_counted()
    ensures { NotesAreCounted }
{}

/// Where no column is over 9, the hits of the ten columns together are the hits, and their misses the misses.
pub fn columns_counted()
    ensures { ColumnsAreCounted }
{}

/// There are neither strays nor misses exactly if the presses, in their order, stand where the played notes do, in theirs.
pub fn clean_trace()
    ensures { CleanTrace }
{}

/// Of all records and traces that are accepted the 23 places that are answered have these sums.
pub fn trace_counted()
    ensures { TraceIsCounted }
{}

/// What the examples of pad traces say is answered for records and a trace is what the definitions answer.
pub fn press_examples_hold()
    ensures { PressExamplesHold }
{}

// What a reader expects of these.

/// Hits are no more than the presses, and where there is none all presses are strays.
pub fn hits_are_presses()
    ensures { HitsArePresses }
{}

/// As many presses as a trace has too few, so many misses at least.
pub fn short_trace_misses()
    ensures { ShortTraceMisses }
{}

/// The hits of a column are no more than its played notes, and a column without a played note has neither hits nor misses.
pub fn unplayed_columns()
    ensures { UnplayedColumns }
{}

/// A trace that is one press on each played note, in their order, has neither strays nor misses.
pub fn one_press_each()
    ensures { OnePressEach }
{}

/// No two traces have neither strays nor misses.
pub fn one_trace_passes()
    ensures { OneTracePasses }
{}

/// If none of the ten columns has a hit there is none, and if none has a miss there is none.
pub fn ten_columns()
    ensures { TenColumns }
{}

/// Where neither strays nor misses are answered, there are as many presses as hits and as played notes, those of each column are its hits, and the
/// trace is one press on each.
pub fn what_passes()
    ensures { WhatPasses }
{}

/// Where the trace that is accepted is one press on each played note, neither strays nor misses are answered.
pub fn one_each_passes()
    ensures { OneEachPasses }
{}

/// The table has 14 examples of pad traces.
pub fn press_examples_counted()
    ensures { PressExamplesCounted }
{}
