// The counting program: the stretches laid one by one into the same memory, their counts added and their layers carried on.
ghost use Rattle.std.specs.Prelude.{◌≡◌, ◌+◌, ◌≤◌, length, take};
ghost use Rattle.gates.specs.Layout.{gates_of};
ghost use Rattle.gates.specs.Limits.{most_gates};
ghost use Rattle.tallies.specs.Tally.{cnots_of, rotations_of, highest, layers_after, depth_of, largest};
ghost use Rattle.laying.specs.Answers.{circuit_of};
ghost use Rattle.sets.specs.Lists.{All};
ghost use Rattle.stretches.specs.Stretches.{stretches_of};
ghost use Rattle.stretches.specs.Asked.{Accepts};
ghost use Rattle.stretches.specs.Laid.{stretch_records, job_records};
ghost use Rattle.reading.specs.Limits.{most_bytes};
ghost use Rattle.console.specs.Printed.{most_printed, Prints, counted_job, counted_text};

use crate::{COUPLER_LINES, GATE_LINES, INPUT, OUTPUT, front, refusing};
use laying::lay;
use lines::print;
use reading::read;
use stretches::{cut, judge};
use tallies::depth::Layers;
use tallies::tally;

// What is counted so far, and the layer of the last CNOT on each wire.
#[derive(Clone, Copy)]
struct Counts {
    cnots: usize,
    rotations: usize,
    layers: Layers,
}

// A stretch laid, and counted behind what is counted already.
fn count_stretch(n: usize, couplers: &[u32], stretch: &[u32], counts: Counts) -> Counts
    requires { Accepts n couplers.now stretch.now × (counts.cnots + largest ≤ 18446744073709551615) × (counts.rotations + largest ≤ 18446744073709551615) }
    ensures { (result.cnots ≡ counts.cnots + cnots_of (circuit_of n couplers.now stretch.now)) × (result.rotations ≡ counts.rotations + rotations_of (circuit_of n couplers.now stretch.now)) × (result.layers.last ≡ layers_after (gates_of n (stretch_records n couplers.now stretch.now)) counts.layers.last) }
{
    let mut laid = [0u32; tally::LARGEST];
    match lay::lay(n, couplers, stretch, &mut laid) {
        Ok(more) => {
            let layers = counts.layers;
            Counts {
                cnots: counts.cnots + more.cnots,
                rotations: counts.rotations + more.rotations,
                layers: layers.fed(&laid[..more.records], n),
            }
        }
        Err(_) => counts,
    }
}

// The whole laid list, in which a Hadamard is no CNOT and no rotation and takes no layer.
fn count_stretches(n: usize, couplers: &[u32], gates: &[u32]) -> Counts
    requires { All (Accepts n couplers.now) (stretches_of n gates.now) × (length gates.now ≤ most_gates) }
    ensures { (result.cnots ≡ cnots_of (gates_of n (job_records n couplers.now gates.now))) × (result.rotations ≡ rotations_of (gates_of n (job_records n couplers.now gates.now))) × (highest result.layers.last ≡ depth_of (gates_of n (job_records n couplers.now gates.now))) }
{
    let mut counts = Counts {
        cnots: 0,
        rotations: 0,
        layers: Layers::none(),
    };
    let mut from = 0;
    while from <= gates.len() {
        let stretch = cut::stretch_at(n, gates, from);
        counts = count_stretch(n, couplers, stretch, counts);
        from = from + stretch.len() + 1;
    }
    counts
}

fn count_job(n: usize, couplers: &[u32], gates: &[u32], out: &mut [u8; OUTPUT]) -> usize
    ensures { Prints most_printed (counted_job n couplers.now gates.now) out.old result out.new }
{
    match judge::judge(n, couplers, gates) {
        Ok(()) => {
            let counts = count_stretches(n, couplers, gates);
            let layers = counts.layers;
            print::counts(counts.cnots, counts.rotations, layers.highest(), out)
        }
        Err(refusal) => refusing::print_refusal(Err(refusal), out),
    }
}

// What is said of a text: the line of its counts, or a refusal.
pub fn count(text: &[u8], out: &mut [u8; OUTPUT]) -> usize
    ensures { Prints most_printed (counted_text text.now) out.old result out.new }
{
    let mut couplers = [0u32; COUPLER_LINES];
    let mut gates = [0u32; GATE_LINES];
    match read::read(text, &mut couplers, &mut gates) {
        Ok(job) => {
            let c = job.couplers;
            let g = job.gates;
            count_job(job.qubits, &couplers[..c], &gates[..g], out)
        }
        Err(refusal) => refusing::print_refusal(Err(refusal), out),
    }
}

// The same of `len` bytes of `input`.
pub fn count_text(input: &[u8; INPUT], len: usize, out: &mut [u8; OUTPUT]) -> usize
    ensures input_len { length input.now ≡ most_bytes + 1 }
    ensures prints { Prints most_printed (counted_text (take len input.now)) out.old result out.new }
{
    count(front::first(input, len), out)
}
