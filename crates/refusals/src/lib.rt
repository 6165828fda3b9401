// The checks of a call on a chart's text, each by the lengths of what it was lent. A call makes them in order, and ends with the first that refuses.
#![tactic(auto)]

ghost use Rattle.std.specs.Prelude.{◌≡◌, ◌+◌, ◌*◌, ◌/◌, ◌≤◌, nat_lt, OnOk};
ghost use Rattle.definitions.specs.Sizes.{most_bytes};
ghost use Rattle.definitions.specs.Lanes.{most_rows_in};
ghost use Rattle.definitions.specs.Refusals.{refused_if, long_text, short_text, short_measures, short_beats, short_work, short_notes};

use definitions::{Lanes, Refusal};

/// The text is not too long.
#[tactic(auto, unfolding(definitions::specs::Refusals::long_text))]
pub fn text_fits(len: usize) -> Result<(), Refusal>
    ensures value { result ≡ long_text len }
    ensures ok { OnOk result (len ≤ most_bytes) }
{
    if definitions::MOST_BYTES < len {
        return Err(Refusal::LongText);
    }
    Ok(())
}

// A slice has room for what a call may write to it; where it has not, the call is refused so.
fn has_room(room: usize, needed: usize, refusal: Refusal) -> Result<(), Refusal>
    ensures value { result ≡ refused_if (nat_lt room needed) refusal }
    ensures ok { OnOk result (needed ≤ room) }
{
    if room < needed {
        return Err(refusal);
    }
    Ok(())
}

/// The text slice has room for a text of that length.
#[tactic(auto, unfolding(definitions::specs::Refusals::short_text))]
pub fn room_for_text(len: usize, room: usize) -> Result<(), Refusal>
    requires { len ≤ most_bytes }
    ensures value { result ≡ short_text len room }
    ensures ok { OnOk result (len + 1 ≤ room) }
{
    has_room(room, len + 1, Refusal::ShortText)
}

/// The measure slice has room for the measures of such a text.
#[tactic(auto, unfolding(definitions::specs::Refusals::short_measures))]
pub fn room_for_measures(len: usize, room: usize) -> Result<(), Refusal>
    requires { len ≤ most_bytes }
    ensures value { result ≡ short_measures len room }
    ensures ok { OnOk result ((len + 1) / 2 + 1 ≤ room) }
{
    has_room(room, (len + 1) / 2 + 1, Refusal::ShortMeasures)
}

/// The most rows of such a text at so many lanes.
#[tactic(auto, unfolding(definitions::specs::Lanes::most_rows_in))]
pub fn most_rows(lanes: Lanes, len: usize) -> usize
    requires { len ≤ most_bytes }
    ensures value { result ≡ most_rows_in lanes.count len }
    ensures few { result ≤ len + 1 }
{
    (len + 1) / (lanes.count + 1)
}

/// The beat slice has room for the beats of such a text's rows.
#[tactic(auto, unfolding(definitions::specs::Refusals::short_beats))]
pub fn room_for_beats(lanes: Lanes, len: usize, room: usize) -> Result<(), Refusal>
    requires { len ≤ most_bytes }
    ensures value { result ≡ short_beats lanes.count len room }
    ensures ok { OnOk result (most_rows_in lanes.count len ≤ room) }
{
    has_room(room, most_rows(lanes, len), Refusal::ShortBeats)
}

/// The work slice has room for its rows.
#[tactic(auto, unfolding(definitions::specs::Refusals::short_work))]
pub fn room_for_work(lanes: Lanes, len: usize, room: usize) -> Result<(), Refusal>
    requires { len ≤ most_bytes }
    ensures value { result ≡ short_work lanes.count len room }
    ensures ok { OnOk result (most_rows_in lanes.count len ≤ room) }
{
    has_room(room, most_rows(lanes, len), Refusal::ShortWork)
}

/// The note slice has room for a note in each cell of its rows.
#[tactic(auto, unfolding(definitions::specs::Refusals::short_notes))]
pub fn room_for_notes(lanes: Lanes, len: usize, room: usize) -> Result<(), Refusal>
    requires { len ≤ most_bytes }
    ensures value { result ≡ short_notes lanes.count len room }
    ensures ok { OnOk result (10 * lanes.count * most_rows_in lanes.count len ≤ room) }
{
    let needed = 10 * lanes.count * most_rows(lanes, len);
    has_room(room, needed, Refusal::ShortNotes)
}
