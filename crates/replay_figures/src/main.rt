// Replays the stored sample of the Rust's answers (tests/vectors/README.md), which it reads from standard input, with the timing rows, the scans,
// the judged calls, the list of dropped heads, the chart that is written from notes and the presses of a trace.
#![tactic(auto)]

use replay::Call;
use std::io;

fn main(rt: HostRuntime) -> io::Result<()> {
    let calls = [
        Call::TimingRows,
        Call::Densities,
        Call::Spacing,
        Call::LastBeat,
        Call::Judged,
        Call::Flagged,
        Call::Dropped,
        Call::Written,
        Call::Pressed,
    ];
    replay::replay_texts(&rt, &calls)
}
