// The ending: from where the wires stand to the parities asked for. It knows gatherings and spare
// qubits, and no terms.
#![tactic(auto)]

mod clearing;
pub mod closing;
pub mod mirror;
mod rows;

pub use clearing::Island;
