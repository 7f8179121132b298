// The program: a front, then a part for each stretch, and last the common phase, each printed into the same memory. The whole text is never held.
ghost use Rattle.std.specs.Prelude.{◌≡◌, ◌+◌, ◌≤◌, length, take};
ghost use Rattle.reading.specs.Limits.{most_bytes};
ghost use Rattle.qasm_lines.specs.Spelling.{gates_text, phase_text};
ghost use Rattle.console.specs.Printed.{most_gate_lines, Prints, refusal_of};
ghost use Rattle.console.specs.Parts.{part_text, next_part, share_part};
ghost use Rattle.qasm_console.specs.Printed.{most_shown};
ghost use Rattle.qasm_console.specs.Parts.{front_circuit, nothing_handed, handed_circuit, handed_in, BeginsCircuit, BeginsTexts};

use crate::OUTPUT;
use crate::form::Statements;
use console::parts::{LaidPart, Parts};
use console::{COUPLER_LINES, GATE_LINES, INPUT, front, parts, refusing};
use gates::job::Job;
use qasm_lines::put;
use qasm_reading::read;
use qasm_reading::read::Circuit;
use reading::couplers;
use stretches::judge;
use verdicts::verdict::Verdict;
use versions::Version;

// A front that was printed, and what comes behind it: the circuit, whose first part begins at `from`, and the common phase that was read.
#[derive(Clone, Copy)]
pub struct BegunCircuit {
    pub version: Version,
    pub job: Job,
    pub bytes: usize,
    pub from: usize,
    pub phase: u32,
}

// Of a refused text nothing is handed on.
fn refuse(verdict: Verdict, out: &mut [u8; OUTPUT]) -> BegunCircuit
    ensures { Prints most_shown (refusal_of verdict) out.old result.bytes out.new × (handed_in result ≡ nothing_handed) }
{
    BegunCircuit {
        version: Version::Two,
        job: Job {
            qubits: 0,
            couplers: 0,
            gates: 0,
        },
        bytes: refusing::print_refusal(verdict, out),
        from: 1,
        phase: 0,
    }
}

// The whole circuit judged, and the statements before its gates.
fn begin_gates(
    circuit: Circuit,
    couplers: &[u32],
    gates: &[u32],
    out: &mut [u8; OUTPUT],
) -> BegunCircuit
    requires { length gates.now ≤ most_gate_lines }
    ensures { Prints most_shown (front_circuit circuit couplers.now gates.now) out.old result.bytes out.new × (handed_in result ≡ handed_circuit circuit couplers.now gates.now) }
{
    let version = circuit.version;
    let n = circuit.qubits;
    let job = Job {
        qubits: n,
        couplers: couplers.len(),
        gates: gates.len(),
    };
    match judge::judge(n, couplers, gates) {
        Ok(()) => BegunCircuit {
            version,
            job,
            bytes: put::put_head(out, version, n),
            from: 0,
            phase: circuit.phase,
        },
        Err(refusal) => BegunCircuit {
            version,
            job,
            bytes: refusing::print_refusal(Err(refusal), out),
            from: gates.len() + 1,
            phase: 0,
        },
    }
}

// A circuit's text read, the whole circuit judged on these couplers, and its front printed.
fn begin_drawing(
    couplers: &[u32],
    text: &[u8],
    gates: &mut [u32; GATE_LINES],
    out: &mut [u8; OUTPUT],
) -> BegunCircuit
    ensures { BeginsCircuit couplers.now text.now gates.old out.old result gates.new out.new }
{
    match read::read(text, &mut *gates) {
        Ok(circuit) => {
            let g = circuit.gates;
            begin_gates(circuit, couplers, front::first(gates, g), out)
        }
        Err(refusal) => refuse(Err(refusal), out),
    }
}

// Reads `len` bytes of `input`, judges the whole circuit on these couplers and prints its front. No refusal comes behind it.
pub fn begin_circuit(
    couplers: &[u32],
    input: &[u8; INPUT],
    len: usize,
    gates: &mut [u32; GATE_LINES],
    out: &mut [u8; OUTPUT],
) -> BegunCircuit
    ensures input_len { length input.now ≡ most_bytes + 1 }
    ensures begins_circuit { BeginsCircuit couplers.now (take len input.now) gates.old out.old result gates.new out.new }
{
    begin_drawing(couplers, front::first(input, len), gates, out)
}

// The same of both texts, the couplers' first: it is read first, and its refusals come first.
pub fn begin_texts(
    listing: &[u8],
    text: &[u8],
    couplers: &mut [u32; COUPLER_LINES],
    gates: &mut [u32; GATE_LINES],
    out: &mut [u8; OUTPUT],
) -> BegunCircuit
    ensures { BeginsTexts listing.now text.now couplers.old gates.old out.old result couplers.new gates.new out.new }
{
    match couplers::read_couplers(listing, &mut *couplers) {
        Ok(job) => begin_drawing(front::first(couplers, job.couplers), text, gates, out),
        Err(refusal) => refuse(Err(refusal), out),
    }
}

// The same of `listed` bytes of `listing` and `len` of `input`.
pub fn begin(
    listing: &[u8; INPUT],
    listed: usize,
    input: &[u8; INPUT],
    len: usize,
    couplers: &mut [u32; COUPLER_LINES],
    gates: &mut [u32; GATE_LINES],
    out: &mut [u8; OUTPUT],
) -> BegunCircuit
    ensures listing_len { (length listing.now ≡ most_bytes + 1) × (length input.now ≡ most_bytes + 1) }
    ensures begins_texts { BeginsTexts (take listed listing.now) (take len input.now) couplers.old gates.old out.old result couplers.new gates.new out.new }
{
    begin_texts(
        front::first(listing, listed),
        front::first(input, len),
        couplers,
        gates,
        out,
    )
}

// Prints the part of the stretch that begins at `from`; nothing above the number of gates.
pub fn lay_part(
    version: Version,
    n: usize,
    couplers: &[u32],
    gates: &[u32],
    from: usize,
    out: &mut [u8; OUTPUT],
) -> LaidPart
    ensures { Prints most_shown (part_text (gates_text version) n couplers.now gates.now from) out.old result.bytes out.new × (result.next ≡ next_part n gates.now from) × (result.phase ≡ share_part n couplers.now gates.now from) }
{
    parts::print_whole_part(Statements { version }, n, couplers, gates, from, out)
}

impl Parts<{ OUTPUT }> for Statements {
    fn lay_part(
        self,
        n: usize,
        couplers: &[u32],
        gates: &[u32],
        from: usize,
        out: &mut [u8; OUTPUT],
    ) -> LaidPart {
        lay_part(self.version, n, couplers, gates, from, out)
    }
}

// Prints the whole common phase, behind the last part; nothing where it is 0.
pub fn end(version: Version, phase: u32, out: &mut [u8; OUTPUT]) -> usize
    ensures { Prints most_shown (phase_text version phase) out.old result out.new }
{
    put::put_phase(out, 0, version, phase)
}
