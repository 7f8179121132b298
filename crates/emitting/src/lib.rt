// Gates written one behind another into a lent list of records. It knows gates and their records,
// and not why they are laid.
#![tactic(auto)]

pub mod emit;
