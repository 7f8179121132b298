// A circuit's lines as they are written: one behind another, each where it fits.
ghost use Rattle.lines.specs.Lent.{Fitted, FittedLines};
ghost use Rattle.qasm_lines.specs.Spelling.{gate_text, head_text, phase_text};

use crate::spelling;
use crate::spelling::GateLines;
use lines::records;
use versions::Version;

// The place behind the head, or 0 where it does not fit; then nothing is written.
pub fn put_head(text: &mut [u8], version: Version, n: usize) -> usize
    ensures { Fitted text.old 0 (head_text version n) text.new result }
{
    spelling::head(version, n).put(text, 0)
}

// The place behind the last line that fits. A line that does not fit is left out, and the next one is tried where it would have stood.
pub fn put_gates(text: &mut [u8], from: usize, version: Version, gates: &[u32]) -> usize
    ensures { FittedLines (gate_text version) text.old from gates.now text.new result }
{
    records::put_lines(&GateLines { version }, text, from, gates)
}

// The line of a common phase; none where it is 0.
pub fn put_phase(text: &mut [u8], at: usize, version: Version, phase: u32) -> usize
    ensures { Fitted text.old at (phase_text version phase) text.new result }
{
    match spelling::phase(version, phase) {
        None => at,
        Some(line) => line.put(text, at),
    }
}
