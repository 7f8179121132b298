// What a list of gates does to the wires: parities, flips, angles and the common phase. It knows
// gates, and no chip.
#![tactic(auto)]

pub mod wires;
