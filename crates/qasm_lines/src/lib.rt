// The lines of a circuit in OpenQASM 2.0 or 3.0, written one by one where there is room. It knows
// versions and lines, and not how a circuit is read.
#![tactic(auto)]

pub mod put;
pub mod room;
mod spelling;
