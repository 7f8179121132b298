// The table of refusals, with numbers and places, and the tests of a job's lists. It knows records,
// and nothing of what they mean.
#![tactic(auto)]

pub mod verdict;
