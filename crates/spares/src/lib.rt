// Connected sets of a chip, and the qubits that they can spare. It knows the graph alone.
#![tactic(auto)]

pub mod spare;
