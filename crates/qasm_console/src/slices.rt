// What the program `qasm` writes, for texts of any length. `programs` hands it on beside its own, whose memory is that of the program.
ghost use Rattle.std.specs.Prelude.{OnOk};
ghost use Rattle.std.specs.Io.KnownBytes.{Appends};
ghost use Rattle.qasm_console.specs.Printed.{laid_texts};

use crate::form::Statements;
use crate::{OUTPUT, printing};
use console::{COUPLER_LINES, GATE_LINES, front, programs};
use std::io;
use std::io::Write;

// For a couplers' text and a circuit's: the front, the parts, and last the common phase.
pub fn write_laid<W: Write>(writer: &mut W, listing: &[u8], text: &[u8]) -> io::Result<()>
    ensures { OnOk result (Appends (W.contents writer.old) (W.contents writer.new) (laid_texts listing.now text.now)) }
{
    let mut couplers = [0u32; COUPLER_LINES];
    let mut gates = [0u32; GATE_LINES];
    let mut out = [0u8; OUTPUT];
    let begun = printing::begin_texts(listing, text, &mut couplers, &mut gates, &mut out);
    writer.write_all(front::first(&out, begun.bytes))?;
    let job = begun.job;
    let version = begun.version;
    let phase = programs::write_laid_parts(
        writer,
        Statements { version },
        job.qubits,
        front::first(&couplers, job.couplers),
        front::first(&gates, job.gates),
        begun.from,
        begun.phase,
        &mut out,
    )?;
    let k = printing::end(version, phase, &mut out);
    writer.write_all(front::first(&out, k))
}
