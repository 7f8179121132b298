// Tests 1 to 8 in document 01's order.
ghost use Rattle.std.specs.Prelude.{◌≡◌, ◌≤◌};
ghost use Rattle.gates.specs.Limits.{most_qubits};
ghost use Rattle.gates.specs.Layout.{gates_of};
ghost use Rattle.judging.specs.Tests.{judged_meaning, verdict_on};

use crate::reach;
use gates::job::Job;
use meaning::told;
use tallies::tally;
use verdicts::verdict;
use verdicts::verdict::{Refusal, Verdict};

// Tests 6, 7 and 8.
fn judge_inside(n: usize, islands: [u32; Job::QUBITS], gates: &[u32], room: usize) -> Verdict
    requires { n ≤ most_qubits }
    ensures { result ≡ judged_meaning n islands (gates_of n gates.now) room }
{
    let told = told::tell(gates, n);
    if told.fed < gates.len() {
        return Err(Refusal::ManyParities(told.fed));
    }
    let meaning = told.meaning;
    if let Some(wire) = reach::stray(n, islands, meaning.wires.parity) {
        return Err(Refusal::Unreachable(wire));
    }
    let terms = meaning.sums.terms();
    let count = terms.len;
    let parities = &terms.parity[..count];
    if reach::some_scattered(islands, parities) {
        return Err(Refusal::Unreachable(n));
    }
    if room < tally::bound(n as u8, count as u16) {
        return Err(Refusal::Room);
    }
    Ok(())
}

// The islands are handed in: found once, they serve every stretch of a job.
pub fn judge_on(
    n: usize,
    couplers: &[u32],
    islands: [u32; Job::QUBITS],
    gates: &[u32],
    room: usize,
) -> Verdict
    ensures { result ≡ verdict_on n couplers.now islands gates.now room }
{
    verdict::judge_qubits(n)?;
    verdict::judge_couplers(couplers, n)?;
    let is_many = Job::GATES < gates.len();
    if is_many {
        return Err(Refusal::ManyGates);
    }
    verdict::judge_gates(gates, n)?;
    judge_inside(n, islands, gates, room)
}
