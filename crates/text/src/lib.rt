// A job's text, written; what is written is read back, and what is read was written so. It knows
// reading and lines, and nothing of laying.
#![tactic(auto)]

pub mod write;
