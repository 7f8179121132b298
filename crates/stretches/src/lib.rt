// Jobs with Hadamards: the stretches between them, judged and laid one by one; the entry point
// `lay_job`. It knows how one stretch is judged and laid, and no text.
#![tactic(auto)]

pub mod cut;
pub mod job;
pub mod judge;
