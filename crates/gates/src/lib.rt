// Jobs, gates and couplers, the records that hold them, and the limits of a job. It knows sets, and
// nothing of what a gate does.
#![tactic(auto)]

pub mod coupler;
pub mod gate;
pub mod hadamard;
pub mod job;
pub mod record;
