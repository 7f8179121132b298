// A job's text, read; and a text of couplers alone. It knows lines and refusals, and nothing of
// laying.
#![tactic(auto)]

pub mod couplers;
mod line;
pub mod read;
mod run;
pub mod sort;
