// The islands of a chip. It knows the graph alone.
#![tactic(auto)]

pub mod islands;
