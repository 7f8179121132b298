// What the programs write, for a text of any length; and parts in any form, printed into a memory of any size. `programs` hands these on beside its own, whose memory is that of the programs.
ghost use Rattle.std.specs.Prelude.{◌≡◌, ◌+◌, length, OnOk, IfOk};
ghost use Rattle.std.specs.Io.KnownBytes.{Appends};
ghost use Rattle.circuit.specs.Phase.{phases};
ghost use Rattle.console.specs.Forms.{PartsFit};
ghost use Rattle.console.specs.Parts.{parts_from, phase_from, phase_of_text};
ghost use Rattle.console.specs.Printed.{laid_text, counted_text};

use crate::form::{Form, Lines};
use crate::programs::write_laid_parts;
use crate::{COUPLER_LINES, GATE_LINES, OUTPUT, counting, front, parts, printing};
use circuit::wires;
use std::io;
use std::io::Write;

// The parts from the one that begins at `from`, the whole of each where there is room for each part: the common phase, which was `phase`, with their shares.
pub fn write_parts<W: Write, F: Form, const ROOM: usize>(
    writer: &mut W,
    form: F,
    n: usize,
    couplers: &[u32],
    gates: &[u32],
    from: usize,
    phase: u32,
    out: &mut [u8; ROOM],
) -> io::Result<u32>
    ensures bytes { PartsFit (F.line form) (F.text form) ROOM → OnOk result (Appends (W.contents writer.old) (W.contents writer.new) (parts_from (F.text form) n couplers.now gates.now (length gates.now + 1) from)) }
    ensures phase { IfOk result (λ g. phases g 0 ≡ phases (phase_from n couplers.now gates.now (length gates.now + 1) from phase) 0) }
{
    let mut from = from;
    let mut phase = phase;
    while from <= gates.len() {
        let part = parts::print_part(form, n, couplers, gates, from, &mut *out);
        writer.write_all(front::first(out, part.bytes))?;
        phase = wires::together(phase, part.phase);
        from = part.next;
    }
    Ok(phase)
}

// What the laying program writes for a text. No text has a line for the common phase, which is returned.
pub fn write_laid<W: Write>(writer: &mut W, text: &[u8]) -> io::Result<u32>
    ensures bytes { OnOk result (Appends (W.contents writer.old) (W.contents writer.new) (laid_text text.now)) }
    ensures phase { IfOk result (λ g. phases g 0 ≡ phases (phase_of_text text.now) 0) }
{
    let mut couplers = [0u32; COUPLER_LINES];
    let mut gates = [0u32; GATE_LINES];
    let mut out = [0u8; OUTPUT];
    let begun = printing::begin_text(text, &mut couplers, &mut gates, &mut out);
    writer.write_all(front::first(&out, begun.bytes))?;
    let job = begun.job;
    write_laid_parts(
        writer,
        Lines,
        job.qubits,
        front::first(&couplers, job.couplers),
        front::first(&gates, job.gates),
        begun.from,
        0,
        &mut out,
    )
}

// What the counting program writes for it.
pub fn write_counts<W: Write>(writer: &mut W, text: &[u8]) -> io::Result<()>
    ensures { OnOk result (Appends (W.contents writer.old) (W.contents writer.new) (counted_text text.now)) }
{
    let mut out = [0u8; OUTPUT];
    let k = counting::count(text, &mut out);
    writer.write_all(front::first(&out, k))
}
