// What the two programs for jobs print for a text: it is read, judged, and laid stretch by stretch;
// the first refusal decides. It knows texts and laying, and of the operating system only that it
// can be written to.
#![tactic(auto)]

use gates::job::Job;
use reading::read;
use tallies::tally;

pub mod counting;
pub mod form;
pub mod front;
pub mod parts;
pub mod printing;
pub mod programs;
pub mod refusing;
mod slices;

// Lent for what is read: one byte more than a job's text may have, so that the reader sees a longer one.
pub const INPUT: usize = read::MOST_BYTES + 1;

// Lent for what is printed at a time: 6 bytes for the `q` line, 12 for each coupler and for each gate of a stretch.
pub const OUTPUT: usize = 6 + 12 * Job::COUPLERS + 12 * tally::LARGEST;

// Lent to the reader for the couplers: no text within its limit has more lines of them, so that 8 cannot hide 2.
pub const COUPLER_LINES: usize = 10922;

// Lent to it for the gates, whose lines may be shorter: so 8 cannot hide 4 either.
pub const GATE_LINES: usize = 16383;
