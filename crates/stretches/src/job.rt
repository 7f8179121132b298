// The entry point: a job's tests in order, and its stretches laid one behind another, with the Hadamards between them.
ghost use Rattle.std.specs.Prelude.{◌≡◌, ◌≤◌, ◌+◌, length};
ghost use Rattle.std.proofs.lemmas.List.Edits.{sets};
ghost use Rattle.gates.specs.Limits.{most_qubits};
ghost use Rattle.gates.specs.Layout.{gates_of};
ghost use Rattle.circuit.specs.Phase.{phase_of};
ghost use Rattle.meaning.specs.Borne.{terms};
ghost use Rattle.tallies.specs.Tally.{bound_of};
ghost use Rattle.sets.specs.Lists.{All};
ghost use Rattle.stretches.specs.Stretches.{stretches_of};
ghost use Rattle.stretches.specs.Tests.{judged_bound};
ghost use Rattle.stretches.specs.Asked.{Counted, Accepts};
ghost use Rattle.stretches.specs.Laid.{stretch_records, job_records, job_phase, job_answered, job_output};

use crate::{cut, judge};
use circuit::wires;
use laying::lay;
use laying::lay::Laid;
use meaning::told;
use tallies::tally;
use verdicts::verdict::{Refusal, Verdict};

// B of a stretch.
fn bound_of(n: usize, stretch: &[u32]) -> usize
    requires { (n ≤ most_qubits) × Counted n stretch.now }
    ensures { result ≡ bound_of n (length (terms (gates_of n stretch.now))) }
{
    let told = told::tell(stretch, n);
    let meaning = told.meaning;
    let sums = meaning.sums;
    let terms = sums.terms();
    let count = terms.len;
    tally::bound(n as u8, count as u16)
}

// Test 8: each stretch takes its B from the room, and each Hadamard one record.
fn judge_room(n: usize, gates: &[u32], room: usize) -> Verdict
    requires { (n ≤ most_qubits) × All (Counted n) (stretches_of n gates.now) }
    ensures { result ≡ judged_bound n gates.now room }
{
    let mut left = room;
    let mut from = 0;
    while from <= gates.len() {
        let stretch = cut::stretch_at(n, gates, from);
        let bound = bound_of(n, stretch);
        if left < bound {
            return Err(Refusal::Room);
        }
        left -= bound;
        let hadamards = cut::hadamard_at(n, gates, from).len();
        if left < hadamards {
            return Err(Refusal::Room);
        }
        left -= hadamards;
        from = from + stretch.len() + 1;
    }
    Ok(())
}

// Where the records laid end, and the common phase of what they were laid for.
#[derive(Clone, Copy)]
struct Part {
    next: usize,
    phase: u32,
}

// The records from `at` on; the place behind them.
fn store_records(records: &[u32], out: &mut [u32], at: usize) -> usize
    requires { at + length records.now ≤ length out.old }
    ensures { (result ≡ at + length records.now) × (out.new ≡ sets out.old at records.now) }
{
    let next = at + records.len();
    out[at..next].copy_from_slice(records);
    next
}

// A stretch laid as the job that it is by itself, its records from `at` on.
fn lay_stretch(n: usize, couplers: &[u32], stretch: &[u32], out: &mut [u32], at: usize) -> Part
    requires { Accepts n couplers.now stretch.now × (at + length (stretch_records n couplers.now stretch.now) ≤ length out.old) }
    ensures { (result.next ≡ at + length (stretch_records n couplers.now stretch.now)) × (result.phase ≡ phase_of (gates_of n stretch.now)) × (out.new ≡ sets out.old at (stretch_records n couplers.now stretch.now)) }
{
    let mut laid = [0u32; tally::LARGEST];
    match lay::lay(n, couplers, stretch, &mut laid) {
        Ok(counts) => Part {
            next: store_records(&laid[..counts.records], out, at),
            phase: counts.phase,
        },
        Err(_) => Part { next: at, phase: 0 },
    }
}

// The stretches one behind another, with the Hadamards between them.
fn lay_stretches(n: usize, couplers: &[u32], gates: &[u32], out: &mut [u32]) -> Part
    requires { All (Accepts n couplers.now) (stretches_of n gates.now) × (length (job_records n couplers.now gates.now) ≤ length out.old) }
    ensures { (result.next ≡ length (job_records n couplers.now gates.now)) × (result.phase ≡ job_phase n gates.now) × (out.new ≡ sets out.old 0 (job_records n couplers.now gates.now)) }
{
    let mut at = 0;
    let mut phase = 0;
    let mut from = 0;
    while from <= gates.len() {
        let stretch = cut::stretch_at(n, gates, from);
        let part = lay_stretch(n, couplers, stretch, out, at);
        at = store_records(cut::hadamard_at(n, gates, from), out, part.next);
        phase = wires::together(phase, part.phase);
        from = from + stretch.len() + 1;
    }
    Part { next: at, phase }
}

// Lays a job: tests 1 to 8 in order; the gates go to `out` only once all of them are passed.
pub fn lay_job(n: usize, couplers: &[u32], gates: &[u32], out: &mut [u32]) -> Result<Laid, Refusal>
    ensures { (result ≡ job_answered n couplers.now gates.now (length out.old)) × (out.new ≡ job_output n couplers.now gates.now out.old) }
{
    judge::judge(n, couplers, gates)?;
    judge_room(n, gates, out.len())?;
    let part = lay_stretches(n, couplers, gates, out);
    let next = part.next;
    Ok(lay::counted(&out[..next], n, part.phase))
}
