// The chip: couplers, the graph that they make, the search in it, and gates that keep to it. It
// knows records and sets, and nothing of what gates do.
#![tactic(auto)]

pub mod couplers;
pub mod search;
