// The three scans over the raw rows of a text: densities, spacing and the last beat. Minimising drops only rows that are all zero, so no
// measure is stored.
#![tactic(auto)]

pub mod densities;
pub mod last_beat;
pub mod spacing;
