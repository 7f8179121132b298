// What a job means: the wires and the table of sums, fed gate by gate, and when two lists mean the
// same. It knows circuits and the table, and no islands.
#![tactic(auto)]

pub mod told;
