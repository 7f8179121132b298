// A circuit's text in OpenQASM 2.0 or 3.0, read. It knows statements and refusals, and nothing of
// laying.
#![tactic(auto)]

pub mod read;
mod run;
