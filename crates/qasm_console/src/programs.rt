// What the program `qasm` writes, each piece as soon as it is printed.
ghost use Rattle.std.specs.Prelude.{OnOk, take};
ghost use Rattle.std.specs.Io.KnownBytes.{Appends};
ghost use Rattle.qasm_console.specs.Printed.{laid_texts};

use crate::form::Statements;
pub use crate::slices::write_laid;
use crate::{OUTPUT, printing};
use console::{COUPLER_LINES, GATE_LINES, INPUT, front, programs};
use std::io;
use std::io::Write;

// For a couplers' text, `listed` bytes of `listing`, and a circuit's, `len` of `input`: the front, the parts, and last the common phase.
pub fn write_laid_input<W: Write>(
    writer: &mut W,
    listing: &[u8; INPUT],
    listed: usize,
    input: &[u8; INPUT],
    len: usize,
) -> io::Result<()>
    ensures { OnOk result (Appends (W.contents writer.old) (W.contents writer.new) (laid_texts (take listed listing.now) (take len input.now))) }
{
    let mut couplers = [0u32; COUPLER_LINES];
    let mut gates = [0u32; GATE_LINES];
    let mut out = [0u8; OUTPUT];
    let begun = printing::begin(
        listing,
        listed,
        input,
        len,
        &mut couplers,
        &mut gates,
        &mut out,
    );
    writer.write_all(front::first(&out, begun.bytes))?;
    let job = begun.job;
    let version = begun.version;
    let phase = programs::write_laid_parts(
        writer,
        Statements { version },
        job.qubits,
        front::first(&couplers, job.couplers),
        front::first(&gates, job.gates),
        begun.from,
        begun.phase,
        &mut out,
    )?;
    let k = printing::end(version, phase, &mut out);
    writer.write_all(front::first(&out, k))
}
