// Leaves exported to Rust, for the differential run alone. Each says its answer for every input, and what it leaves in what it is lent: where
// the input is none that the leaf takes, a number that the leaf never answers, and nothing is written. The definitions are in specs/Answers.
#![tactic(auto)]

mod beat;
mod cell;
mod line;
mod measure;
