// The main theorems about the definitions, each as the contract of a function that does nothing: what a contract says is proved, or the crate
// is not built. Specification, Contracts: "Damage is stated of the same definitions as the contracts."
#![tactic(auto)]

pub mod presses;
pub mod written;

ghost use Rattle.std.specs.Prelude.{ℕ, ◌≤◌, List, length};
ghost use Rattle.definitions.specs.Sizes.{most_bytes};
ghost use Rattle.definitions.specs.Judged.{judged_tally, flagged_tally};
ghost use Rattle.definitions.specs.Entries.{measure_count, figures_of_chart, places_of_chart, figures_of_kept, places_of_kept, figures_of_dropped, places_of_dropped, figures_of_timing, places_of_timing, places_of_measures, figures_of_last, places_of_last, places_of_judged};
ghost use Rattle.definitions.specs.Directions.{DirectionsSum};
ghost use Rattle.definitions.specs.Damage.{Differ, DamageStays};
ghost use Rattle.definitions.specs.Halving.{ReduceHalved};
ghost use Rattle.definitions.specs.ReadBack.{OwnRows, MainKeptAgree};
ghost use Rattle.definitions.specs.WriterMakes.{WriterMakes};
ghost use Rattle.definitions.specs.DroppedOrNoted.{DroppedOrNoted};
ghost use Rattle.definitions.specs.DroppedStays.{DroppedStays};
ghost use Rattle.definitions.specs.FlagsAsked.{FlagsAsked};
ghost use Rattle.definitions.specs.SmBlocks.{DataInFile, SemicolonLast, BlocksApart, LeastRefused};
ghost use Rattle.definitions.specs.Beats.{last_row};
ghost use Rattle.definitions.specs.BeatsNear.{SizeWithin, Nearest48, BeatsNear, BeatsToSpare, BeatsNearer, BeatsExact, LastNear, TextBeatsStand, TextLastNear};
ghost use Rattle.definitions.specs.Consequences.{MeasuresAround, LaterNotes, NothingOpen, NotesBefore, OpenHeads, SameLastBeat, ListedExactly, HeadsShared, ListRises, LaterDrops, EarlierDrops, OpenDrops, ReducedStays, JudgedAgain, SameTallies, ArrowsAdd, LastZeros, FlagsPastRows, EachRowJudged, FakesAlone, PlacesNear, RowsNear, LastPlaces, LastOfTexts, LimitsSuffice, RecordsOfTexts, DataThere, OneSemicolon, FewBlocks, BlocksDisjoint, ElevenSays, ExamplesCounted};
ghost use Rattle.files.specs.Rest.{RestAnswered, RestInOrder};
ghost use Rattle.sheet_print.specs.Example.{PrintExample};
ghost use Rattle.sheet_json.specs.Example.{JsonExample};
ghost use Rattle.chart_sheet.specs.Forms.{sheet_in_form};
ghost use Rattle.chart_sheet.specs.Entry.{most_sheet_bytes, places_of_sheet};
ghost use Rattle.laws.specs.Fits.{FitsForAll, WrittenFits};
ghost use Rattle.laws.specs.Examples.{ExamplesHold, RuleExamplesHold, TallyExamplesHold, RequestExamplesHold, DroppedExamplesHold, CardExample, BeatsRight, DamageMet, LastBeatStays};

/// What the specification's examples P1 to P11 say of their texts is what the definitions give.
pub fn examples_hold()
    ensures { ExamplesHold }
{}

/// What the examples R1 to R40, which pin the rules one by one, say of their texts is what the definitions give.
pub fn rule_examples_hold()
    ensures { RuleExamplesHold }
{}

/// What the examples of keysounds, of six lanes and of missing flags say of their texts is what the definitions give.
pub fn tally_examples_hold()
    ensures { TallyExamplesHold }
{}

/// What the examples of SM files say is answered for a block is what the definitions answer.
pub fn request_examples_hold()
    ensures { RequestExamplesHold }
{}

/// What the specification's examples of dropped heads say of their texts is what the definitions give.
pub fn dropped_examples_hold()
    ensures { DroppedExamplesHold }
{}

/// The card of the specification's example has the lines that are shown there.
pub fn card_example()
    ensures { CardExample }
{}

/// The form `print` of the figures of an example is the text that stands beside them.
pub fn print_example()
    ensures { PrintExample }
{}

/// The form `json` of the figures of an example is the object that stands beside them.
pub fn json_example()
    ensures { JsonExample }
{}

/// Row beats and last beats that the Rust computed are what the definitions give.
pub fn beats_right()
    ensures { BeatsRight }
{}

/// Minimising by the stride is halving as long as it goes.
pub fn reduce_halved()
    ensures { ReduceHalved }
{}

/// The minimised text of a chart, read back, has the minimised rows of the chart.
pub fn own_rows()
    ensures { OwnRows }
{}

/// The main and the kept tally of a text are the same.
pub fn main_kept_agree()
    ensures { MainKeptAgree }
{}

/// The arrows of each tally are those of its six directions.
pub fn directions_sum()
    ensures { (L : ℕ) (text flags : List ℕ) → DirectionsSum L text flags }
{}

/// A missing flag is a flag 0, flags that say the same of each row give the same tally, which is that with every row judged where they all judge
/// theirs, and without flags there are fakes alone.
pub fn flags_as_asked()
    ensures { FlagsAsked }
{}

/// Where two texts differ only in lines of one measure, the rest of every answer is the same.
pub fn damage_stays()
    ensures { (L d : ℕ) (old new : List ℕ) → Differ L d old new → DamageStays L d old new }
{}

/// Two texts meet each hypothesis of `damage_stays`, and what it promises holds of them, part by part.
pub fn damage_met()
    ensures { DamageMet }
{}

/// Two texts that meet the hypotheses under which the last beat stays have the same last beat, in 48ths too.
pub fn last_beat_stays()
    ensures { LastBeatStays }
{}

/// A note record is what the writer makes of a note, and is read back as that note.
pub fn writer_makes()
    ensures { WriterMakes }
{}

/// Each head is in the list of dropped heads or has a note record, and not both.
pub fn dropped_or_noted()
    ensures { (L : ℕ) (text : List ℕ) → DroppedOrNoted L text }
{}

/// Where two texts differ only in lines of one measure, the rest of the list is the same.
pub fn dropped_stays()
    ensures { (L d : ℕ) (old new : List ℕ) → Differ L d old new → DroppedStays L d old new }
{}

/// Every figure that a call answers of an accepted text is below 2 ^ 64, in its place among the 32.
pub fn figures_fit()
    ensures chart { FitsForAll (λ L text. places_of_chart (figures_of_chart L text)) }
    ensures kept { FitsForAll (λ L text. places_of_kept (figures_of_kept L text)) }
    ensures dropped { FitsForAll (λ L text. places_of_dropped (figures_of_dropped L text)) }
    ensures written { WrittenFits }
    ensures timing { FitsForAll (λ L text. places_of_timing (figures_of_timing L text)) }
    ensures measures { FitsForAll (λ L text. places_of_measures (measure_count L text)) }
    ensures last { FitsForAll (λ L text. places_of_last (figures_of_last L text)) }
    ensures judged { FitsForAll (λ L text. places_of_judged (judged_tally L text)) }
    ensures flagged { (flags : List ℕ)
        → FitsForAll (λ L text. places_of_judged (flagged_tally L flags text)) }
    ensures sheet { (form : ℕ) → FitsForAll (places_of_sheet form) }
{}

/// Every form of the sheet of an accepted text has room in the slice that is asked for.
pub fn sheet_has_room()
    ensures { (L : ℕ) → 4 ≤ L → L ≤ 10 → (form : ℕ) (text : List ℕ) → length text ≤ most_bytes
        → length (sheet_in_form form L text) ≤ most_sheet_bytes (length text) }
{}

/// The data that is found in a block of a file is a part of the file.
pub fn data_in_file()
    ensures { DataInFile }
{}

/// The data of a block has a `;` at most as its last byte.
pub fn semicolon_last()
    ensures { SemicolonLast }
{}

/// The blocks of a file stand apart.
pub fn blocks_apart()
    ensures { BlocksApart }
{}

/// The number of blocks is the least k that is answered 11.
pub fn least_refused()
    ensures { LeastRefused }
{}

/// What follows the line on which a file's first block ends has the other charts, each with the same answer.
pub fn rest_answered()
    ensures { RestAnswered }
{}

/// In the measures 0 to 1,023 every row beat is within 1/4096 of 4 × m + 4 × r / n.
pub fn beats_near()
    ensures { BeatsNear }
{}

/// In the measures 0 to 1,023 every row beat is within 1/8176 of 4 × m + 4 × r / n, and in those below 2^j within (2^j + 2) / 2^23.
pub fn beats_nearer()
    ensures to_spare { BeatsToSpare }
    ensures every_measure { BeatsNearer }
{}

/// In the measures 0 to 1,023, where n divides 192, a row beat times 48, rounded, is exactly 192 × m + 192 × r / n.
pub fn beats_exact()
    ensures { BeatsExact }
{}

/// No whole number is nearer to 192 × m + 192 × r / n than the one that is divided by 48 to give the last beat.
pub fn last_near()
    ensures { LastNear }
{}

/// Every row beat of an accepted text is that of one of its rows, and as near to it as `beats_near`, `beats_nearer` and `beats_exact` say.
pub fn text_beats_stand()
    ensures { TextBeatsStand }
{}

/// The last object row of an accepted text is one of its rows, and no whole number is nearer to it in 48ths than the text's last beat.
pub fn text_last_near()
    ensures { TextLastNear }
{}

/// "More than that is false, each at a place": half of 1/4096, or 1/8177, in the measures 0 to 1,023; 1/4096 in measure 1,024; and the nearest whole
/// number in a measure that no accepted text has with so many rows.
pub fn claims_tight()
    ensures half { ¬ SizeWithin 1 8192 715 3784 4091 }
    ensures little_less { ¬ SizeWithin 1 8177 512 32254 32477 }
    ensures measure_1024 { ¬ SizeWithin 1 4096 1024 1563 1583 }
    ensures past_the_text { ¬ Nearest48 (last_row 5592405 1828774 2396755) 5592405 1828774 2396755 }
{}

// What a reader expects of these, each by the statement alone.

/// Where two texts differ only in lines of measure d, the measures before d are the same and so are those after it.
pub fn measures_around()
    ensures { (L d : ℕ) (old new : List ℕ) → Differ L d old new → MeasuresAround L d old new }
{}

/// The columns and kinds of the later notes are the same lists, their rows and tails the same less the shift.
pub fn later_notes()
    ensures { (L d : ℕ) (old new : List ℕ) → Differ L d old new → LaterNotes L d old new }
{}

/// Where no head is open at d, the earlier notes are the same.
pub fn nothing_open()
    ensures { (L d : ℕ) (old new : List ℕ) → Differ L d old new → NothingOpen L d old new }
{}

/// The notes that lie before d are the same, whatever is open there.
pub fn notes_before()
    ensures { (L d : ℕ) (old new : List ℕ) → Differ L d old new → NotesBefore L d old new }
{}

/// A head that is open at d has one note at most, of the head's kind and with its tail in a row of the text.
pub fn open_heads()
    ensures { (L d : ℕ) (old new : List ℕ) → Differ L d old new → OpenHeads L d old new }
{}

/// Where the later measures have a 1, 3, M, L, F or K, and the first in none of their columns is a 3, the last beat is the same, by its bits and in
/// 48ths.
pub fn same_last_beat()
    ensures { (L d : ℕ) (old new : List ℕ) → Differ L d old new → SameLastBeat L d old new }
{}

/// A head is listed once where no note has its place, and not where one note has it; and nothing but heads is listed.
pub fn listed_exactly()
    ensures { (L : ℕ) (text : List ℕ) → ListedExactly L text }
{}

/// As many heads are listed as there are heads without a note.
pub fn heads_shared()
    ensures { (L : ℕ) (text : List ℕ) → HeadsShared L text }
{}

/// Of any two listed heads the later one stands in a later row, or further right in the same row.
pub fn list_rises()
    ensures { (L : ℕ) (text : List ℕ) → ListRises L text }
{}

/// The columns of the heads listed in later measures are the same list, their rows and causes the same less the shift.
pub fn later_drops()
    ensures { (L d : ℕ) (old new : List ℕ) → Differ L d old new → LaterDrops L d old new }
{}

/// Where no head is open at d, the heads listed before it are the same, and those that a row before d dropped are the same whatever is open.
pub fn earlier_drops()
    ensures { (L d : ℕ) (old new : List ℕ) → Differ L d old new → EarlierDrops L d old new }
{}

/// A head that is open at d is listed once at most, dropped by a row of the text or by its end.
pub fn open_drops()
    ensures { (L d : ℕ) (old new : List ℕ) → Differ L d old new → OpenDrops L d old new }
{}

/// What is minimised stays as it is.
pub fn reduced_stays()
    ensures { ReducedStays }
{}

/// The judged tallies of a chart's minimised text count the chart's own minimised rows.
pub fn judged_again()
    ensures { JudgedAgain }
{}

/// The main call and the kept-row call answer the same tally in the same places.
pub fn same_tallies()
    ensures { SameTallies }
{}

/// In the places of each call with a tally the six directions together are all arrows.
pub fn arrows_add()
    ensures { (L : ℕ) (text flags : List ℕ) → ArrowsAdd L text flags }
{}

/// Where all flags from some place on are 0, those before it give the same figures.
pub fn last_zeros()
    ensures { LastZeros }
{}

/// Where each row has a flag, the flags that follow say nothing.
pub fn flags_past_rows()
    ensures { FlagsPastRows }
{}

/// Where each row has a flag, and none is 0, the figures are those with every row judged.
pub fn each_row_judged()
    ensures { EachRowJudged }
{}

/// Without flags every figure is 0 but the fakes.
pub fn fakes_alone()
    ensures { FakesAlone }
{}

/// The beat of row r of n in measure m is near 4 × m + 4 × r / n, and how near goes by the measure.
pub fn places_near()
    ensures { PlacesNear }
{}

/// A text has as many beats as rows, and at each row's place stands the beat of that very row of its own measure, which is near so.
pub fn rows_near()
    ensures { RowsNear }
{}

/// No whole number is nearer to 192 × m + 192 × r / n than the last beat in 48ths: at each place, and for each text at its last object row.
pub fn none_nearer()
    ensures places { LastPlaces }
    ensures texts { LastOfTexts }
{}

/// Notes that keep the writer's limits are read back, whether or not a text has them.
pub fn limits_suffice()
    ensures { LimitsSuffice }
{}

/// The records of a text, read one after the other, give its notes, and what the call answers for each is in range.
pub fn records_of_texts()
    ensures { RecordsOfTexts }
{}

/// The bytes of the file at the place that is answered are the data.
pub fn data_there()
    ensures { DataThere }
{}

/// The data holds one `;` at most, and nothing follows it.
pub fn one_semicolon()
    ensures { OneSemicolon }
{}

/// A file has no more blocks than bytes.
pub fn few_blocks()
    ensures { FewBlocks }
{}

/// No place of a file lies in two blocks.
pub fn blocks_disjoint()
    ensures { BlocksDisjoint }
{}

/// 11 says that k is not below the number of blocks, which is the first that is answered so.
pub fn eleven_says()
    ensures { ElevenSays }
{}

/// A file's charts are that of its first block and then those of what follows it, which has one block less, told part by part.
pub fn rest_in_order()
    ensures { RestInOrder }
{}

/// The tables have all of P1 to P11, R1 to R40, K1 to K5, S1 to S6 and F1 to F5, with as many things as each says, 18 examples of SM files, and
/// seven lists of dropped heads with all their fields.
pub fn examples_counted()
    ensures { ExamplesCounted }
{}
