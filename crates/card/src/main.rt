// The program card (Specification, Program card): reads standard input, 4 lanes, at most 4,095 bytes, and prints the sheet; for more it prints
// `refused 1`.
#![tactic(auto)]

ghost use Rattle.std.specs.Prelude.{◌≡◌, ◌≤◌, length, take, codes};
ghost use Rattle.sheet.specs.Card.{card};
ghost use Rattle.sheet.specs.Card.{sheet as sheet_lines};

use page::Page;
use std::io;
use std::io::{Print, Read};

// Zeros to lend. The contract tells their number alone, so that no proof goes over them one by one.
fn zeros<T: Copy, const N: usize>(zero: T) -> [T; N]
    ensures { N ≡ length result }
{
    [zero; N]
}

// The sheet of a text that is short enough, from the slice's first place on. Each slice that is lent is as long as a text of 4,095 bytes asks for.
fn put_chart(data: &[u8], out: &mut [u8]) -> usize
    requires text_length { length «data».now ≤ 4095 }
    requires room { 175032 ≤ length out.old }
    ensures within { result ≤ length out.new }
    ensures written { take result out.new ≡ sheet_lines 4 «data».now }
{
    let mut text = zeros::<u8, 4096>(0);
    let mut densities = zeros::<u32, 2049>(0);
    let mut spacing = zeros::<u8, 2049>(0);
    let mut beats = zeros::<f32, 819>(0.0);
    let mut work = zeros::<u16, 819>(0);
    let mut notes = zeros::<u8, 32760>(0);
    match chart_sheet::chart_sheet(
        data,
        4,
        0,
        &mut text,
        &mut densities,
        &mut spacing,
        &mut beats,
        &mut work,
        &mut notes,
        out,
    ) {
        Ok(figures) => figures[7] as usize,
        Err(_) => unreachable!(),
    }
}

// The line of a text that is too long.
fn put_refusal(out: &mut [u8]) -> usize
    requires { 10 ≤ length out.old }
    ensures within { result ≤ length out.new }
    ensures written { take result out.new ≡ codes "refused 1\n" }
{
    let mut page = Page::new(out);
    match page.text("refused 1\n") {
        Ok(()) => page.len(),
        Err(_) => unreachable!(),
    }
}

#[tactic(auto, unfolding(sheet::specs::Card::card))]
fn put_card(data: &[u8], out: &mut [u8]) -> usize
    requires { 175032 ≤ length out.old }
    ensures within { result ≤ length out.new }
    ensures written { take result out.new ≡ card «data».now }
{
    if data.len() > 4095 {
        return put_refusal(out);
    }
    put_chart(data, out)
}

// One byte more than is accepted tells a longer text.
fn main(rt: HostRuntime) -> io::Result<()> {
    let mut data = Vec::new(rt.alloc());
    rt.reader().take(4096).read_to_end(&mut data)?;
    let mut out = zeros::<u8, 175032>(0);
    let n = put_card(&data, &mut out);
    rt.write_all(&out[..n])
}
