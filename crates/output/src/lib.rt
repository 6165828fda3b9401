// Writing minimised text: a row, a row with its newline, and the `,` line between two measures.
#![tactic(auto)]

ghost use Rattle.std.specs.Prelude.{◌≡◌, ◌++◌, ◌∷◌, [], ◌+◌, ◌≤◌, length, take, drop};
ghost use Rattle.std.specs.List.{splice};
ghost use Rattle.reduction.specs.Rows.{placed};

// Four bytes of the row, all read before one is written, so that they are moved as one.
fn put_four(text: &mut [u8], at: usize, row: &[u8], from: usize)
    requires from_within { from + 4 ≤ length row.now }
    requires text_room { at + 4 ≤ length text.old }
    ensures { text.new ≡ splice text.old at (at + 4) (take 4 (drop from row.now)) }
{
    let a = row[from];
    let b = row[from + 1];
    let c = row[from + 2];
    let d = row[from + 3];
    text[at] = a;
    text[at + 1] = b;
    text[at + 2] = c;
    text[at + 3] = d;
}

// The row's bytes from `at` on.
fn put_bytes(text: &mut [u8], at: usize, row: &[u8])
    requires { at + length row.now ≤ length text.old }
    ensures { text.new ≡ placed at row.now text.old }
{
    text[at..at + row.len()].copy_from_slice(row);
}

/// The row's bytes from `at` on: four at a time where it has four to twelve, the last four always, so that fours may overlap.
pub fn put_row(text: &mut [u8], at: usize, row: &[u8])
    requires { at + length row.now ≤ length text.old }
    ensures { text.new ≡ placed at row.now text.old }
{
    let n = row.len();
    if (n < 4) | (12 < n) {
        put_bytes(text, at, row);
        return;
    }
    put_four(text, at, row, 0);
    if 8 < n {
        put_four(text, at + 4, row, 4);
    }
    let last = n - 4;
    put_four(text, at + last, row, last);
}

/// The row's bytes and byte 10.
pub fn put_line(text: &mut [u8], at: usize, row: &[u8])
    requires { at + length row.now + 1 ≤ length text.old }
    ensures { text.new ≡ placed at (row.now ++ (10 ∷ [])) text.old }
{
    put_row(text, at, row);
    text[at + row.len()] = 10;
}

/// The bytes `,` and 10.
pub fn put_comma(text: &mut [u8], at: usize)
    requires { at + 2 ≤ length text.old }
    ensures { text.new ≡ placed at (44 ∷ 10 ∷ []) text.old }
{
    text[at..at + 2].copy_from_slice(b",\n");
}
