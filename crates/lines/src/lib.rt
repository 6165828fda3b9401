// The line reader: lines of a chart's text, the trimming of a line, and the search and count of a byte. A line is a part of the caller's text.
#![tactic(auto)]

pub mod words;

ghost use Rattle.std.specs.Prelude.{◌≡◌, ◌==◌, ◌+◌, ◌<◌, ◌≤◌, Some, length, take, drop, position};
ghost use Rattle.std.specs.List.{position_from};
ghost use Rattle.definitions.specs.Lists.{among, after};
ghost use Rattle.definitions.specs.Lines.{is_blank_byte, trim};
ghost use Rattle.definitions.specs.ReadBack.{without_cr};
ghost use Rattle.lines.specs.Search.{count_of, or_else};
ghost use Rattle.lines.specs.Words.{starts_plain};
ghost use Rattle.lines.specs.Lines.{first_line};

/// The line without one carriage return at its end.
#[tactic(auto, using(crate::proofs::Trims::trims))]
pub fn trim_cr(line: &[u8]) -> &[u8]
    ensures { result.now ≡ without_cr line.now }
{
    match line {
        [bare @ .., b'\r'] => bare,
        _ => line,
    }
}

/// Whether a byte is one of the blanks that are taken off a line's start. With an arm for each the compiler looks it up; in one arm it compares five times.
#[tactic(auto, unfolding(definitions::specs::Lines::is_blank_byte))]
pub fn is_blank(b: u8) -> bool
    ensures { result ≡ is_blank_byte b }
{
    match b {
        9 => true,
        10 => true,
        12 => true,
        13 => true,
        32 => true,
        _ => false,
    }
}

/// The line without its leading blanks.
pub fn skip_ws(line: &[u8]) -> &[u8]
    ensures { result.now ≡ trim line.now }
{
    let mut i = 0;
    while i < line.len() {
        if !is_blank(line[i]) {
            break;
        }
        i += 1;
    }
    &line[i..]
}

/// How many bytes of `slice` are `needle`: by words of eight, then the rest one by one.
pub fn count_byte(slice: &[u8], needle: u8) -> usize
    ensures { result ≡ count_of needle slice.now }
{
    let mut n = 0;
    let mut i = 0;
    while i + 8 <= slice.len() {
        let mask = words::byte_match_mask(words::word_at(slice, i), needle);
        n += u64::count_ones(mask) as usize;
        i += 8;
    }
    while i < slice.len() {
        if slice[i] == needle {
            n += 1;
        }
        i += 1;
    }
    n
}

/// The place of the first of `near` bytes of `slice` that is `needle`: one byte after the other.
fn find_near(slice: &[u8], needle: u8, near: usize) -> Option<usize>
    requires { near ≤ length slice.now }
    ensures { position (λ x. x == needle) slice.now
        ≡ or_else result (position_from (λ x. x == needle) near (drop near slice.now)) }
{
    let mut place = 0;
    while place < near {
        if slice[place] == needle {
            return Some(place);
        }
        place += 1;
    }
    None
}

/// The first place from `from` on where `slice` has `needle`: one byte after the other.
fn find_rest(slice: &[u8], needle: u8, from: usize) -> Option<usize>
    requires { from ≤ length slice.now }
    ensures { result ≡ position_from (λ x. x == needle) from (drop from slice.now) }
{
    let mut i = from;
    while i < slice.len() {
        if slice[i] == needle {
            return Some(i);
        }
        i += 1;
    }
    None
}

/// The place of the first of the eight bytes from `i` on that is `needle`, by one word.
fn find_in_word(slice: &[u8], needle: u8, i: usize) -> Option<usize>
    requires { i + 8 ≤ length slice.now }
    ensures { position_from (λ x. x == needle) i (drop i slice.now)
        ≡ or_else result (position_from (λ x. x == needle) (i + 8) (drop (i + 8) slice.now)) }
{
    let hits = words::byte_hits(words::word_at(slice, i), needle);
    if hits == 0 {
        return None;
    }
    let at = (u64::trailing_zeros(hits) / 8) as usize;
    Some(i + at)
}

/// Whether one of some bytes is `needle`. It looks at every byte: a loop without a way out is done sixteen bytes at a time.
fn has_byte(bytes: &[u8], needle: u8) -> bool
    ensures { result ≡ among needle bytes.now }
{
    let mut has = false;
    for &b in bytes {
        has |= needle == b;
    }
    has
}

/// From where on `slice` is left to be searched for `needle`, by 32 bytes a turn: from `from` or further on, and nothing before it is `needle`.
fn past_blocks(slice: &[u8], needle: u8, from: usize) -> usize
    requires { from ≤ length slice.now }
    ensures within { result ≤ length slice.now }
    ensures passed { position_from (λ x. x == needle) from (drop from slice.now)
        ≡ position_from (λ x. x == needle) result (drop result slice.now) }
{
    let mut i = from;
    while i + 32 <= slice.len() {
        if has_byte(&slice[i..i + 32], needle) {
            break;
        }
        i += 32;
    }
    i
}

/// The first place from `from` on where `slice` has `needle`, by 32 bytes a turn, then by words of eight, then by the bytes that are left. Few lines
/// are so long, and it is not written into its callers.
#[inline(never)]
fn find_long(slice: &[u8], needle: u8, from: usize) -> Option<usize>
    requires { from ≤ length slice.now }
    ensures { result ≡ position_from (λ x. x == needle) from (drop from slice.now) }
{
    let mut i = past_blocks(slice, needle, from);
    while i + 8 <= slice.len() {
        if let Some(at) = find_in_word(slice, needle, i) {
            return Some(at);
        }
        i += 8;
    }
    find_rest(slice, needle, i)
}

/// The same, by two words where there are so many bytes, before the search of a long line. Out of line too, so that loops over lines keep their
/// registers.
#[inline(never)]
fn find_far(slice: &[u8], needle: u8, from: usize) -> Option<usize>
    requires { from ≤ length slice.now }
    ensures { result ≡ position_from (λ x. x == needle) from (drop from slice.now) }
{
    if slice.len() < from + 16 {
        return find_long(slice, needle, from);
    }
    if let Some(at) = find_in_word(slice, needle, from) {
        return Some(at);
    }
    if let Some(at) = find_in_word(slice, needle, from + 8) {
        return Some(at);
    }
    find_long(slice, needle, from + 16)
}

/// The place of the first byte of `slice` that is `needle`: the first sixteen bytes one by one, since most lines end there, then by words of eight, past
/// the second of them by 32 bytes a turn, then the rest one by one.
pub fn find_byte(slice: &[u8], needle: u8) -> Option<usize>
    ensures { result ≡ position (λ x. x == needle) slice.now }
{
    let near = usize::min(slice.len(), 16);
    if let Some(at) = find_near(slice, needle, near) {
        return Some(at);
    }
    find_far(slice, needle, near)
}

/// Whether the last eight of the first `n` bytes, or all of fewer, are from 16 to 143, by one word, and the second, which of ten stands before them, is 16 or
/// more. Where the first is too, no newline or carriage return is among the `n`.
pub fn starts_plain(data: &[u8], n: usize) -> bool
    requires some { 2 ≤ n }
    requires few { n ≤ 10 }
    requires within { n ≤ length «data».now }
    requires wide { 8 ≤ length «data».now }
    ensures { result ≡ starts_plain n «data».now }
{
    let few = usize::min(n, 8);
    words::starts_plain(words::halves_at(data, n - few), few) & (16 <= data[1])
}

/// The line that starts at `start`, without its newline, and what follows that newline: nothing where there is none, nor past the text's end. It is
/// written into its callers, which are loops over lines.
#[inline(always)]
pub fn next_line(data: &[u8], start: usize) -> (&[u8], &[u8])
    ensures line { result.0.now ≡ first_line (drop start «data».now) }
    ensures below { result.1.now ≡ after 10 (drop start «data».now) }
{
    if start <= data.len() {
        match find_byte(&data[start..], 10) {
            Some(rel) => (&data[start..start + rel], &data[start + rel + 1..]),
            None => (&data[start..], &data[..0]),
        }
    } else {
        (&data[..0], &data[..0])
    }
}

/// What follows the first newline of a text from `start` on, nothing where there is none, by the search of a long line.
#[inline(never)]
fn text_far(data: &[u8], start: usize) -> &[u8]
    requires { start ≤ length «data».now }
    ensures { result.now ≡ after 10 (drop start «data».now) }
{
    match find_long(data, 10, start) {
        Some(at) => &data[at + 1..],
        None => &data[..0],
    }
}

/// What follows the first newline of a text, nothing where there is none: by two words first, since what stands after a row's cells is mostly a comment.
/// It calls nothing on the way of one, and keeps no register.
pub fn text_below(data: &[u8]) -> &[u8]
    ensures { result.now ≡ after 10 «data».now }
{
    if data.len() < 16 {
        return text_far(data, 0);
    }
    if let Some(near) = find_in_word(data, 10, 0) {
        return &data[near + 1..];
    }
    if let Some(next) = find_in_word(data, 10, 8) {
        return &data[next + 1..];
    }
    text_far(data, 16)
}
