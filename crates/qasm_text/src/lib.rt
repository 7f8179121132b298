// A circuit's text in OpenQASM 2.0 or 3.0, written; what is written is read back. It knows reading
// and lines of circuits, and nothing of laying.
#![tactic(auto)]

pub mod write;
