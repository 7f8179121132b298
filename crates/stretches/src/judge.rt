// Tests 1 to 7 of a job: 1 to 5 of all its gates, then 6 of every stretch, then 7 of every stretch.
ghost use Rattle.std.specs.Prelude.{◌≡◌};
ghost use Rattle.gates.specs.Layout.{gates_of};
ghost use Rattle.meaning.specs.Borne.{over_at};
ghost use Rattle.sets.specs.Lists.{All};
ghost use Rattle.stretches.specs.Stretches.{stretches_of};
ghost use Rattle.stretches.specs.Tests.{judged_five, judged_parities_from, judged_reaches, judged_stretches};
ghost use Rattle.stretches.specs.Asked.{OnlyReach};

use crate::cut;
use chip::couplers;
use gates::job::Job;
use isles::islands;
use meaning::told;
use tallies::tally;
use verdicts::verdict;
use verdicts::verdict::{Refusal, Verdict};

// Tests 1 to 5.
fn judge_drawing(n: usize, couplers: &[u32], gates: &[u32]) -> Verdict
    ensures { result ≡ judged_five n couplers.now gates.now }
{
    verdict::judge_qubits(n)?;
    verdict::judge_couplers(couplers, n)?;
    if Job::GATES < gates.len() {
        return Err(Refusal::ManyGates);
    }
    verdict::judge_drawn(gates, n)
}

// The gate of a stretch that brings the 257th parity; the number of its gates where none does.
fn over_at(n: usize, stretch: &[u32]) -> usize
    ensures { result ≡ over_at (gates_of n stretch.now) }
{
    told::tell(stretch, n).fed
}

// Test 6 of every stretch. The stretches are gone over by their places, and not by `split`: a
// refusal returns a place, and where they are laid the Hadamard behind each is asked for too.
fn judge_parities(n: usize, gates: &[u32]) -> Verdict
    ensures { result ≡ judged_parities_from n 0 (stretches_of n gates.now) }
{
    let mut from = 0;
    while from <= gates.len() {
        let stretch = cut::stretch_at(n, gates, from);
        let over = over_at(n, stretch);
        if over < stretch.len() {
            return Err(Refusal::ManyParities(from + over));
        }
        from = from + stretch.len() + 1;
    }
    Ok(())
}

// Test 7 of every stretch, on islands that are found once for all of them. Where nothing else can
// refuse a stretch, what refuses it is test 7.
fn judge_reaches(n: usize, couplers: &[u32], gates: &[u32]) -> Verdict
    requires { All (OnlyReach n couplers.now) (stretches_of n gates.now) }
    ensures { result ≡ judged_reaches n couplers.now gates.now }
{
    let islands = islands::islands(couplers::near(couplers, n));
    if cut::hadamard_at(n, gates, 0).len() == 0 {
        return judging::judge::judge_on(n, couplers, islands, gates, tally::LARGEST);
    }
    let mut from = 0;
    while from <= gates.len() {
        let stretch = cut::stretch_at(n, gates, from);
        let reach = judging::judge::judge_on(n, couplers, islands, stretch, tally::LARGEST);
        if reach.is_err() {
            return Err(Refusal::Unreachable(from));
        }
        from = from + stretch.len() + 1;
    }
    Ok(())
}

// Tests 1 to 7.
pub fn judge(n: usize, couplers: &[u32], gates: &[u32]) -> Verdict
    ensures { result ≡ judged_stretches n couplers.now gates.now }
{
    judge_drawing(n, couplers, gates)?;
    judge_parities(n, gates)?;
    judge_reaches(n, couplers, gates)
}
