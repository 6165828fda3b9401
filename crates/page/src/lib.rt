// A page of lent bytes that says when it is full.
#![tactic(auto)]

ghost use Rattle.std.specs.Prelude.{◌≡◌, ◌∷◌, [], ◌≤◌, length, replicate, decimal};
ghost use Rattle.page.specs.Texts.{number_field, aligned, aligned_left};

use itoa::Buffer;

/// The page has no room for what was to be written.
#[derive(Clone, Copy)]
pub struct Full;

/// A lent slice, written from its first place on.
#[derive(Drop)]
pub struct Page<'a> {
    out: &'a mut [u8],
    at: usize,
    ghost inside: { at ≤ length out.now },
}

impl<'a> Page<'a> {
    ghost use Rattle.page.specs.Prints.{slice_of, place_of, name_of, Prints};

    /// A page over a slice, with nothing written.
    pub fn new(out: &'a mut [u8]) -> Page<'a>
        ensures same_slice { name_of result ≡ out.entry.ghost_name }
        ensures slice { slice_of result ≡ out.old }
        ensures place { place_of result ≡ 0 }
    {
        Page { out, at: 0 }
    }

    /// How many bytes are written.
    pub fn len(&self) -> usize
        ensures { result ≡ place_of self.now }
    {
        self.at
    }

    /// Writes a text, or says that it has no room.
    pub fn text(&mut self, text: &str) -> Result<(), Full>
        ensures { Prints self.old text.now self.new result }
    {
        let bytes = text.as_bytes();
        let at = self.at;
        let out = &mut *self.out;
        if out.len() - at < bytes.len() {
            return Err(Full);
        }
        let end = at + bytes.len();
        out[at..end].copy_from_slice(bytes);
        self.at = end;
        Ok(())
    }

    /// Writes a byte.
    pub fn byte(&mut self, b: u8) -> Result<(), Full>
        ensures { Prints self.old (b ∷ []) self.new result }
    {
        let at = self.at;
        let out = &mut *self.out;
        if out.len() <= at {
            return Err(Full);
        }
        out[at] = b;
        self.at = at + 1;
        Ok(())
    }

    /// Writes `n` blanks.
    pub fn blanks(&mut self, n: usize) -> Result<(), Full>
        ensures { Prints self.old (replicate n 32) self.new result }
    {
        let at = self.at;
        let out = &mut *self.out;
        if out.len() - at < n {
            return Err(Full);
        }
        let end = at + n;
        out[at..end].fill(b' ');
        self.at = end;
        Ok(())
    }

    /// A number in decimal.
    pub fn number(&mut self, n: u64) -> Result<(), Full>
        ensures { Prints self.old (decimal n) self.new result }
    {
        let mut buffer = Buffer::new();
        self.text(buffer.format(n))
    }

    /// A number right-aligned in so many columns; one that has more digits is written whole.
    #[tactic(auto, using(crate::proofs::Pages::keeps_then), unfolding(crate::specs::Texts::aligned))]
    pub fn aligned(&mut self, n: u64, width: usize) -> Result<(), Full>
        ensures { Prints self.old (aligned width n) self.new result }
    {
        let mut buffer = Buffer::new();
        let digits = buffer.format(n);
        self.blanks(width.saturating_sub(digits.len()))?;
        self.text(digits)?;
        Ok(())
    }

    /// A text with as many blanks after it as its columns have left.
    #[tactic(auto, using(crate::proofs::Pages::keeps_then), unfolding(crate::specs::Texts::aligned_left))]
    pub fn left_aligned(&mut self, text: &str, width: usize) -> Result<(), Full>
        ensures { Prints self.old (aligned_left width text.now) self.new result }
    {
        self.text(text)?;
        self.blanks(width.saturating_sub(text.len()))?;
        Ok(())
    }

    /// A number with a byte after it.
    #[tactic(auto, using(crate::proofs::Pages::keeps_then), unfolding(crate::specs::Texts::number_field))]
    pub fn field(&mut self, n: u64, after: u8) -> Result<(), Full>
        ensures { Prints self.old (number_field n after) self.new result }
    {
        self.number(n)?;
        self.byte(after)?;
        Ok(())
    }
}
