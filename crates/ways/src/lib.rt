// One island laid: both ways, each with its closing, the shorter kept. It knows the island's share,
// and nothing else of the job.
#![tactic(auto)]

pub mod island;
