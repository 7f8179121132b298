// The first way, the steps of document 000, Figure 1: from an island's terms to CNOTs and
// rotations. It knows columns and spare qubits, and neither the other way nor endings.
#![tactic(auto)]

ghost use Rattle.steps.specs.Steps.{steps_for};

use columns::way::Way;
use columns::work::Work;
use gates::job::Job;

mod choice;
mod selection;
mod steps;

pub struct BySteps;

impl Way for BySteps {
    ghost piece_for = { steps_for };

    // The columns of one qubit at once, the others by the base step.
    fn lay(near: [u32; Job::QUBITS], set: u32, work: &mut Work) {
        work.strike();
        let live = selection::live(work.columns());
        steps::base(work, near, live, set, sets::size(set));
    }
}
