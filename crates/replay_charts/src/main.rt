// Replays the stored sample of the Rust's answers (tests/vectors/README.md), which it reads from standard input, with the main call and the
// kept-row call.
#![tactic(auto)]

use replay::Call;
use std::io;

fn main(rt: HostRuntime) -> io::Result<()> {
    replay::replay_texts(&rt, &[Call::Main, Call::Kept])
}
