// A statement of a circuit's text in OpenQASM 2.0 or 3.0, read from its words. It knows words,
// angles and records, and not which statement may stand where.
#![tactic(auto)]

mod angle;
pub mod gate;
pub mod head;
mod mark;
