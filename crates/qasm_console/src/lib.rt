// What the program `qasm` prints for a couplers' text and a circuit's: both are read, the circuit
// is judged, and laid stretch by stretch. It knows circuits' texts and laying, and of the operating
// system only that it can be written to.
#![tactic(auto)]

use tallies::tally;

pub mod form;
pub mod printing;
pub mod programs;
mod slices;

// Lent for what is printed at a time: 26 bytes for each gate of a stretch, and for the Hadamard behind it.
pub const OUTPUT: usize = 26 * (tally::LARGEST + 1);
