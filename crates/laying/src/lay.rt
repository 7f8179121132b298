// The entry point: any numbers, any records, any room.
ghost use Rattle.std.specs.Prelude.{◌≡◌, length};
ghost use Rattle.gates.specs.Layout.{gates_of};
ghost use Rattle.circuit.specs.Phase.{phase_of};
ghost use Rattle.laying.specs.Layable.{LayableOn};
ghost use Rattle.emitting.specs.Emit.{Emits};
ghost use Rattle.share.specs.OwnTable.{share_in};
ghost use Rattle.ways.specs.Memory.{island_in_memory};
ghost use Rattle.laying.specs.Stands.{Idles};
ghost use Rattle.laying.specs.Laid.{laid_of};
ghost use Rattle.laying.specs.Answers.{counts_of, answered, output_of};

use crate::stands;
use chip::couplers;
use ending::mirror;
use gates::job::Job;
use isles::islands;
use judging::judge;
use meaning::told;
use share::own;
use share::own::Own;
use tallies::{depth, tally};
use verdicts::verdict::Refusal;
use ways::island;

// The counts of the laid gates.
#[derive(Clone, Copy, Debug, PartialEq, Eq)]
pub struct Laid {
    pub records: usize,
    pub cnots: usize,
    pub rotations: usize,
    pub depth: usize,
    // What the laid gates' common phase lacks of the job's.
    pub phase: u32,
}

// The number of records laid, and the job's common phase.
#[derive(Clone, Copy)]
struct Outcome {
    records: usize,
    phase: u32,
}

// The gates of an island behind those that are laid. One that stands gets none: it is not searched.
fn lay_own(own: Own, out: &mut [u32], at: usize) -> usize
    requires { Idles own }
    ensures { Emits out.old at (island_in_memory (share_in own)) out.new result }
{
    if stands::stands(own) {
        return at;
    }
    island::lay_island(own, out, at)
}

// The islands one after another, by ascending lowest qubit, each with its X gates behind its ending.
fn lay_on(
    n: usize,
    near: [u32; Job::QUBITS],
    islands: [u32; Job::QUBITS],
    gates: &[u32],
    out: &mut [u32],
) -> Outcome
    requires { LayableOn n near islands gates.now }
    ensures { Emits out.old 0 (laid_of n near (gates_of n gates.now)) out.new result.records × (result.phase ≡ phase_of (gates_of n gates.now)) }
{
    let told = told::tell(gates, n);
    let meaning = told.meaning;
    let sums = meaning.sums;
    let wires = meaning.wires;
    let asked = wires.parity;
    let flip = wires.flip;
    let mirror = mirror::mirrored(gates, n);
    let mut at = 0;
    for q in 0..n {
        let set = islands[q];
        if sets::lowest(set) == q {
            let next = lay_own(own::handed(set, near, sums, asked, mirror), out, at);
            at = flips::put_xs(set, flip, out, next);
        }
    }
    Outcome {
        records: at,
        phase: meaning.phase,
    }
}

// The counts of a list of laid records.
pub fn counted(laid: &[u32], n: usize, phase: u32) -> Laid
    ensures { result ≡ counts_of (gates_of n laid.now) phase }
{
    Laid {
        records: laid.len(),
        cnots: tally::cnots(laid, n),
        rotations: tally::rotations(laid, n),
        depth: depth::depth(laid, n),
        phase,
    }
}

// Lays a job: tests 1 to 8 in order; the gates go to `out` only once all of them are passed.
// Neighbours and islands are found once, for the tests and for laying.
pub fn lay(n: usize, couplers: &[u32], gates: &[u32], out: &mut [u32]) -> Result<Laid, Refusal>
    ensures { (result ≡ answered n couplers.now gates.now (length out.old)) × (out.new ≡ output_of n couplers.now gates.now out.old) }
{
    let near = couplers::near(couplers, n);
    let islands = islands::islands(near);
    judge::judge_on(n, couplers, islands, gates, out.len())?;
    let mut laid = [0u32; tally::LARGEST];
    let outcome = lay_on(n, near, islands, gates, &mut laid);
    let k = outcome.records;
    island::replay(&laid[..k], out, 0);
    Ok(counted(&laid[..k], n, outcome.phase))
}
