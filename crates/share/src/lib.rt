// What of a job belongs to one island, its share. It knows the job's table and lists, and no way of
// laying.
#![tactic(auto)]

pub mod own;
