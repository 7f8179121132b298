// A set gathered at one of its qubits, by moves along couplers. It knows the graph, and neither
// terms nor endings.
#![tactic(auto)]

pub mod gather;
