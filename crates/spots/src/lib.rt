// What is read from a place in a text: a byte, a number. It knows digits, and no line.
#![tactic(auto)]

pub mod spot;
