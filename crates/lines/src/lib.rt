// The lines of a text, written one by one where there is room. It knows records, and not how a text
// is read.
#![tactic(auto)]

pub mod kind;
pub mod letter;
mod page;
pub mod pattern;
pub mod print;
pub mod put;
pub mod records;
pub mod room;
