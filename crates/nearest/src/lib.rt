// The second way, nearest first: from an island's terms to CNOTs and rotations. It knows columns
// and gatherings, and neither the steps nor endings.
#![tactic(auto)]

ghost use Rattle.gates.specs.Limits.{most_parities};
ghost use Rattle.columns.specs.Worked.{Worked};
ghost use Rattle.nearest.specs.Nearest.{rounds, nearest_for};

use crate::orders::Orders;
use columns::way::Way;
use columns::work::Work;
use gates::job::Job;

mod choice;
mod moves;
mod orders;
mod sure;

// Each round strikes off a column, so no more rounds than columns are needed.
fn all_rounds(orders: &Orders, work: &mut Work)
    ensures { Worked work.old work.new (rounds most_parities orders.now.near work.old.angles.now orders.now.set work.old.cols.now) }
{
    for _ in 0..Job::PARITIES {
        match orders.choose(work.columns()) {
            Some(c) => moves::gather_next(orders, work, c.column, c.qubit),
            None => return,
        }
    }
}

pub struct NearestFirst;

impl Way for NearestFirst {
    ghost piece_for = { nearest_for };

    // The columns of one qubit at once, the others round by round.
    fn lay(near: [u32; Job::QUBITS], set: u32, work: &mut Work) {
        work.strike();
        all_rounds(&Orders::new(near, set), work);
    }
}
