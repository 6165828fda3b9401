// The charts inside an SM file. A block is found by its tag, and passed over from its tag to its `;` and not line by line.
ghost use Rattle.std.specs.Prelude.{◌≡◌, option_map, option_copied, slice_get};
ghost use Rattle.definitions.specs.SmFile.{sm_answer};
ghost use Rattle.files.specs.Sm.{part_of, data_part, block_parts, answer_of};

use definitions::Refusal;
use std::marker::Model;

/// A block of an SM file: what stands in it after its tag, and what follows it in the file.
#[derive(Clone, Copy)]
pub struct Block<'a> {
    pub text: &'a [u8],
    pub below: &'a [u8],
}

/// The blocks of what is left of an SM file. Clauses see the list of them.
#[derive(Drop)]
pub struct SmBlocks<'a> {
    rest: &'a [u8],
}

impl<'a> Model for SmBlocks<'a> {
    ghost use Rattle.std.specs.Prelude.{List};
    ghost use Rattle.files.specs.Sm.{BlockPart, block_parts};

    ghost Value = { List BlockPart };

    ghost view = { λ it. block_parts it.rest.now };
}

impl<'a> Iterator for SmBlocks<'a> {
    ghost use Rattle.std.specs.Iterator.{YieldsFirstBy, item_count};
    ghost use Rattle.files.specs.Sm.{part_of};

    type Item = Block<'a>;

    ghost next_gives = { YieldsFirstBy part_of (λ rest. rest) };

    ghost remaining = { item_count (λ rest. rest) };

    // A line on which a block ends starts none: the next one is looked for below it.
    fn next(&mut self) -> Option<Block<'a>> {
        let tagged = crate::next_tag(self.rest, b"#NOTES:")?;
        let (text, below) = crate::split_after(tagged, b';');
        let (_, rest) = lines::next_line(below, 0);
        self.rest = rest;
        Some(Block { text, below })
    }
}

/// The blocks of an SM file.
pub fn blocks(file: &[u8]) -> SmBlocks<'_>
    ensures { result ≡ block_parts file.now }
{
    SmBlocks { rest: file }
}

// Block `k` of an SM file, if the file has so many.
fn nth_block(file: &[u8], k: usize) -> Option<Block<'_>>
    ensures { option_map part_of result ≡ slice_get (block_parts file.now) k }
{
    blocks(file).nth(k)
}

// How many fields of a block stand before its data.
const FIELDS: usize = 5;

// The data of a block, by its text: what follows its fields.
fn note_data(text: &[u8]) -> Option<&[u8]>
    ensures { option_copied result ≡ data_part text.now }
{
    let mut rest = text;
    for _ in 0..FIELDS {
        rest = crate::after_byte(rest, b':')?;
    }
    Some(rest)
}

/// A chart inside an SM file: its lane count, where its data begins in the file, and the data.
#[derive(Clone, Copy)]
pub struct SmChart<'a> {
    pub lanes: usize,
    pub start: usize,
    pub data: &'a [u8],
}

/// The chart of block `k` of an SM file, counted from 0. A refusal is the caller's mistake (1: too long a file), of whoever asks (11: no such block), or
/// of the file's author (9: few fields; 10: another type).
#[tactic(auto, unfolding(definitions::specs::SmFile::sm_answer))]
pub fn sm_chart(file: &[u8], k: usize) -> Result<SmChart<'_>, Refusal>
    ensures { answer_of result ≡ sm_answer file.now k }
{
    refusals::text_fits(file.len())?;
    let block = nth_block(file, k).ok_or(Refusal::NoChart)?;
    let data = note_data(block.text).ok_or(Refusal::FewFields)?;
    let lanes = crate::type_lanes(crate::type_name(block.text)).ok_or(Refusal::OtherType)?;
    Ok(SmChart {
        lanes,
        start: file.len() - block.below.len() - data.len(),
        data,
    })
}
