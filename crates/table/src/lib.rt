// The table of parities with their sums, as the code holds it. It knows numbers and limits, and no
// gates.
#![tactic(auto)]

pub mod sums;
