// The line reader. A line is a part of the text, and its length says which.
ghost use Rattle.std.specs.Prelude.{◌≡◌, ◌==◌, length, drop, position};
ghost use Rattle.definitions.specs.Lines.{trim};
ghost use Rattle.definitions.specs.ReadBack.{without_cr};
ghost use Rattle.lines.specs.Search.{count_of};
ghost use Rattle.lines.specs.Lines.{first_line};
ghost use Rattle.leaves.specs.Answers.{number_of_found};

/// How long the line is without its leading blanks.
#[unsafe(no_mangle)]
pub extern "C" fn leaves_skip_ws(line: &[u8]) -> usize
    ensures { result ≡ length (trim line.now) }
{
    lines::skip_ws(line).len()
}

/// How long the line is without a byte 13 at its end.
#[unsafe(no_mangle)]
pub extern "C" fn leaves_trim_cr(line: &[u8]) -> usize
    ensures { result ≡ length (without_cr line.now) }
{
    lines::trim_cr(line).len()
}

// The place, or the largest number.
fn found_number(found: Option<usize>) -> usize
    ensures { result ≡ number_of_found found }
{
    match found {
        Some(at) => at,
        None => usize::MAX,
    }
}

/// The place of the first `needle`, or the largest number.
#[unsafe(no_mangle)]
pub extern "C" fn leaves_find_byte(slice: &[u8], needle: u8) -> usize
    ensures { result ≡ number_of_found (position (λ x. x == needle) slice.now) }
{
    found_number(lines::find_byte(slice, needle))
}

/// How many bytes are `needle`.
#[unsafe(no_mangle)]
pub extern "C" fn leaves_count_byte(slice: &[u8], needle: u8) -> usize
    ensures { result ≡ count_of needle slice.now }
{
    lines::count_byte(slice, needle)
}

/// How long the line is that begins at `start`.
#[unsafe(no_mangle)]
pub extern "C" fn leaves_next_line(data: &[u8], start: usize) -> usize
    ensures { result ≡ length (first_line (drop start «data».now)) }
{
    lines::next_line(data, start).0.len()
}
