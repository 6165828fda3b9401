// Files that hold charts: lines that begin with a tag, the parts of a file between two marks, and the lane count of a type name. What is found is
// a part of the caller's file.
#![tactic(auto)]

pub mod sm;

ghost use Rattle.std.specs.Prelude.{◌≡◌, length, option_copied};
ghost use Rattle.definitions.specs.Lists.{up_to, through, after};
ghost use Rattle.definitions.specs.SmFile.{without_end_blanks, type_of, lanes_of_type};
ghost use Rattle.files.specs.Tags.{after_first, after_tag};

/// How many bytes stand before the first `b`, or in all.
/// Byte by byte: `lines::next_line` alone calls the search `lines::find_byte`, for the newline, since the compiler writes the one byte that it looks
/// for into the loops of every other call.
#[tactic(auto, using(crate::proofs::Words::before_at))]
pub fn before_byte(s: &[u8], b: u8) -> usize
    ensures { result ≡ length (up_to b s.now) }
{
    s.iter().position(|x| *x == b).unwrap_or(s.len())
}

/// The part through the first `b`, or all of it, and what follows that part.
#[tactic(auto, using(crate::proofs::Words::splits))]
pub fn split_after(s: &[u8], b: u8) -> (&[u8], &[u8])
    ensures front { result.0.now ≡ through b s.now }
    ensures rest { result.1.now ≡ after b s.now }
{
    let before = before_byte(s, b);
    if before < s.len() {
        (&s[..before + 1], &s[before + 1..])
    } else {
        (s, &s[..0])
    }
}

/// What follows the first `b`, if there is one.
#[tactic(auto, using(crate::proofs::Words::firsts))]
pub fn after_byte(s: &[u8], b: u8) -> Option<&[u8]>
    ensures { option_copied result ≡ after_first b s.now }
{
    let before = before_byte(s, b);
    if before < s.len() {
        Some(&s[before + 1..])
    } else {
        None
    }
}

/// The part without the blanks at its end.
/// ASCII's white space is what `lines::is_blank` takes as blank.
pub fn trim_end(s: &[u8]) -> &[u8]
    ensures { result.now ≡ without_end_blanks s.now }
{
    s.trim_ascii_end()
}

/// The first field without blanks at its ends: what stands before the first `:`.
pub fn type_name(fields: &[u8]) -> &[u8]
    ensures { result.now ≡ type_of fields.now }
{
    let n = before_byte(fields, b':');
    trim_end(lines::skip_ws(&fields[..n]))
}

/// The lane count of a type, if it has one.
#[tactic(auto, unfolding(definitions::specs::SmFile::lanes_of_type))]
pub fn type_lanes(name: &[u8]) -> Option<usize>
    ensures { result ≡ lanes_of_type name.now }
{
    if name == b"dance-single".as_slice() {
        Some(4)
    } else if name == b"pump-single".as_slice() {
        Some(5)
    } else if name == b"dance-solo".as_slice() {
        Some(6)
    } else if name == b"dance-double".as_slice() {
        Some(8)
    } else if name == b"pump-double".as_slice() {
        Some(10)
    } else {
        None
    }
}

/// What follows the tag of the first line that begins, after blanks, with `word`.
pub fn next_tag<'a>(text: &'a [u8], word: &[u8]) -> Option<&'a [u8]>
    ensures { option_copied result ≡ after_tag word.now text.now }
{
    let mut start = 0;
    while start <= text.len() {
        let (line, _) = lines::next_line(text, start);
        let bare = lines::skip_ws(line);
        if let Some(after) = bare.strip_prefix(word) {
            return Some(&text[start + line.len() - after.len()..]);
        }
        start += line.len() + 1;
    }
    None
}
