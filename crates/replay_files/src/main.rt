// Replays the stored sample of SM files (tests/vectors/README.md), which it reads from standard input: for each block of every file, for the one
// past the last and for one far beyond.
#![tactic(auto)]

use std::io;

fn main(rt: HostRuntime) -> io::Result<()> {
    replay::replay_files(&rt)
}
