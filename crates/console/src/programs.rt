// The texts that the programs write, each piece as soon as it is printed.
ghost use Rattle.std.specs.Prelude.{◌≡◌, ◌+◌, length, take, OnOk, IfOk};
ghost use Rattle.std.specs.Io.KnownBytes.{Appends};
ghost use Rattle.circuit.specs.Phase.{phases};
ghost use Rattle.console.specs.Parts.{parts_from, phase_from, phase_of_text};
ghost use Rattle.console.specs.Printed.{refusal_of, phase_line, laid_text, counted_text};

use crate::form::Lines;
use crate::parts::Parts;
pub use crate::slices::{write_counts, write_laid, write_parts};
use crate::{COUPLER_LINES, GATE_LINES, INPUT, OUTPUT, counting, front, printing, refusing};
use circuit::wires;
use lines::put;
use std::io;
use std::io::Write;
use verdicts::verdict::Verdict;

// The parts from the one that begins at `from`, each printed by its form's own `lay_part` into `out` where the one before was: the common phase, which was `phase`, with their shares.
pub fn write_laid_parts<W: Write, F: Parts<ROOM>, const ROOM: usize>(
    writer: &mut W,
    form: F,
    n: usize,
    couplers: &[u32],
    gates: &[u32],
    from: usize,
    phase: u32,
    out: &mut [u8; ROOM],
) -> io::Result<u32>
    ensures bytes { OnOk result (Appends (W.contents writer.old) (W.contents writer.new) (parts_from (F.text form) n couplers.now gates.now (length gates.now + 1) from)) }
    ensures phase { IfOk result (λ g. phases g 0 ≡ phases (phase_from n couplers.now gates.now (length gates.now + 1) from phase) 0) }
{
    let mut from = from;
    let mut phase = phase;
    while from <= gates.len() {
        let part = form.lay_part(n, couplers, gates, from, &mut *out);
        writer.write_all(front::first(out, part.bytes))?;
        phase = wires::together(phase, part.phase);
        from = part.next;
    }
    Ok(phase)
}

// What the laying program writes for `len` bytes of `input`. No text has a line for the common phase, which is returned.
pub fn write_laid_input<W: Write>(
    writer: &mut W,
    input: &[u8; INPUT],
    len: usize,
) -> io::Result<u32>
    ensures bytes { OnOk result (Appends (W.contents writer.old) (W.contents writer.new) (laid_text (take len input.now))) }
    ensures phase { IfOk result (λ g. phases g 0 ≡ phases (phase_of_text (take len input.now)) 0) }
{
    let mut couplers = [0u32; COUPLER_LINES];
    let mut gates = [0u32; GATE_LINES];
    let mut out = [0u8; OUTPUT];
    let begun = printing::begin(input, len, &mut couplers, &mut gates, &mut out);
    writer.write_all(front::first(&out, begun.bytes))?;
    let job = begun.job;
    write_laid_parts(
        writer,
        Lines,
        job.qubits,
        front::first(&couplers, job.couplers),
        front::first(&gates, job.gates),
        begun.from,
        0,
        &mut out,
    )
}

// What the counting program writes for them.
pub fn write_counts_input<W: Write>(
    writer: &mut W,
    input: &[u8; INPUT],
    len: usize,
) -> io::Result<()>
    ensures { OnOk result (Appends (W.contents writer.old) (W.contents writer.new) (counted_text (take len input.now))) }
{
    let mut out = [0u8; OUTPUT];
    let k = counting::count_text(input, len, &mut out);
    writer.write_all(front::first(&out, k))
}

// Room for a line of two numbers: no number has more than 20 digits.
const LINE: usize = 44;

// An `x` line; of an acceptance it has number 0 at place 0.
pub fn write_verdict<W: Write>(writer: &mut W, v: Verdict) -> io::Result<()>
    ensures { OnOk result (Appends (W.contents writer.old) (W.contents writer.new) (refusal_of v)) }
{
    let mut out = [0u8; LINE];
    let k = refusing::print_refusal(v, &mut out);
    writer.write_all(front::first(&out, k))
}

// A `p` line with a common phase, where it is not 0.
pub fn write_phase<W: Write>(writer: &mut W, phase: u32) -> io::Result<()>
    ensures { OnOk result (Appends (W.contents writer.old) (W.contents writer.new) (phase_line phase)) }
{
    if phase == 0 {
        return Ok(());
    }
    let mut out = [0u8; LINE];
    let numbers = [phase as usize];
    let k = put::put_line(&mut out, 0, b'p', &numbers);
    writer.write_all(front::first(&out, k))
}
