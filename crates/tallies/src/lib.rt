// The size of a list of gates: its counts, the bound on them, its depth. It knows gates, and
// nothing of what they do to a wire.
#![tactic(auto)]

pub mod depth;
pub mod tally;
