// Tests 1 to 8 of one stretch. It knows meaning and islands, and nothing of how gates are laid.
#![tactic(auto)]

pub mod judge;
mod reach;
