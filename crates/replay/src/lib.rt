// Replays a stored sample of answers (tests/vectors/README.md), which it reads from standard input: asks the calls again about each text or file,
// compares all that they leave, stops at the first difference, and says how many answers it compared.
#![tactic(auto)]

mod agreements;
mod sm;
mod texts;

use std::io;
use std::io::{BufReader, Print, Read};
use stored::sample::{read_head, read_record, read_up_to};
pub use texts::Call;

/// How a record compares: so many answers agree, or the first that differs, by its place among the stored ones, or it is not as long as its
/// lengths say.
#[derive(Clone, Copy)]
pub enum Compared {
    Agree(usize),
    Differs(usize),
    Malformed,
}

/// Compares the records of texts with what these calls answer.
pub fn replay_texts(rt: &HostRuntime, calls: &[Call]) -> io::Result<()> {
    replay(rt, b"ANSWERS1", |record| texts::compared(record, calls))
}

/// Compares the records of SM files.
pub fn replay_files(rt: &HostRuntime) -> io::Result<()> {
    replay(rt, b"SMFILES1", sm::compared)
}

// Compares each record, and says how many answers agree, once those of every record do and the sample ends there.
fn replay<F: Fn(&[u8]) -> Compared>(rt: &HostRuntime, mark: &[u8; 8], compare: F) -> io::Result<()>
    requires { F.IsAlwaysCallable compare }
{
    let alloc = rt.alloc();
    let mut input = BufReader::new(alloc, rt.reader())?;
    let Some(texts) = read_head(alloc, &mut input, u64::from_le_bytes(*mark))? else {
        return println!(rt; "standard input is no stored sample");
    };
    let mut answers: usize = 0;
    for index in 0..texts {
        let compared = match read_record(alloc, &mut input)? {
            Some(record) => compare(&record),
            None => Compared::Malformed,
        };
        match compared {
            Compared::Agree(agreeing) => answers = answers.saturating_add(agreeing),
            Compared::Differs(call) => return println!(rt; "text {index}: call {call} differs"),
            Compared::Malformed => {
                return println!(rt; "text {index}: the record is not as long as it says");
            }
        }
    }
    if !read_up_to(alloc, &mut input, 1)?.is_empty() {
        return println!(rt; "something stands after the last record");
    }
    println!(rt; "{answers} answers agree, for {texts} texts")
}
