// The ways to take one qubit out of an island, and the cheapest of them.
ghost use Rattle.std.specs.Prelude.{◌≡◌, ◌<◌, map, length};
ghost use Rattle.gates.specs.Limits.{most_qubits};
ghost use Rattle.gathering.specs.Order.{order_of, order_in};
ghost use Rattle.ending.specs.Clear.{row_at, out_of, cost_of, cheaper_of, choices_at, cheapest_in, cheapest_of};
ghost use Rattle.ending.specs.Held.{gates_in, without_of};

use crate::rows;
use gates::job::Job;
use gathering::gather;
use gathering::gather::{Moves, Order};

// A qubit to take out, and the order: its asked row is cleared first and then its mirror row, or its
// mirror row first.
#[derive(Clone, Copy)]
pub(crate) struct Clearing {
    pub(crate) qubit: usize,
    pub(crate) mirrored: bool,
}

// The cheapest choice so far, and how many CNOTs it has.
#[derive(Clone, Copy)]
pub(crate) struct Best {
    pub(crate) choice: Clearing,
    pub(crate) cost: usize,
}

// The CNOTs of a choice: the gathering of the row that is cleared first, and that of the other one.
// The moves of mirror rows are laid with control and target changed over.
#[derive(Drop)]
pub(crate) struct Taking {
    pub(crate) mirrored: bool,
    pub(crate) first: Moves,
    pub(crate) second: Moves,
}

impl Taking {
    fn len(&self) -> usize
        ensures { result ≡ length (gates_in self.now) }
    {
        self.first.as_slice().len() + self.second.as_slice().len()
    }
}

// The qubits of an island, their neighbours in it, and asked rows and mirror rows.
#[derive(Clone, Copy)]
pub struct Island {
    pub near: [u32; Job::QUBITS],
    pub set: u32,
    pub asked: [u32; Job::QUBITS],
    pub mirror: [u32; Job::QUBITS],
}

impl Island {
    // The asked row of v, or its mirror row.
    #[tactic(auto, unfolding(crate::specs::Clear::row_at))]
    fn row(&self, v: usize, mirrored: bool) -> u32
        requires { v < most_qubits }
        ensures { result ≡ row_at self.now.asked self.now.mirror v mirrored }
    {
        if mirrored {
            self.mirror[v]
        } else {
            self.asked[v]
        }
    }

    // A choice. Both gatherings go along the order from its qubit.
    fn along(&self, order: &Order, choice: Clearing) -> Taking
        requires { (choice.qubit < most_qubits) × (order.now ≡ order_in (order_of self.now.near self.now.set choice.qubit)) }
        ensures { let i = self.now in gates_in result ≡ out_of i.near i.set i.asked i.mirror choice }
    {
        let Clearing { qubit, mirrored } = choice;
        let first = gather::along(self.near, self.set, order, self.row(qubit, mirrored));
        let left = rows::moved(self.row(qubit, !mirrored), first.as_slice(), true);
        let second = gather::along(self.near, self.set, order, left);
        Taking {
            mirrored,
            first,
            second,
        }
    }

    pub(crate) fn taking(&self, choice: Clearing) -> Taking
        requires { choice.qubit < most_qubits }
        ensures { let i = self.now in gates_in result ≡ out_of i.near i.set i.asked i.mirror choice }
    {
        let order = gather::by_distance(self.near, self.set, choice.qubit);
        self.along(&order, choice)
    }

    // The cheapest of both choices at v, if it can be spared, and the best one so far. One order
    // from v serves all four gatherings.
    fn better(&self, v: usize, best: Option<Best>) -> Option<Best>
        requires { v < most_qubits }
        ensures { let i = self.now in result ≡ cheapest_in (cost_of i.near i.set i.asked i.mirror) best (choices_at i.near i.set v) }
    {
        if !spares::spare::spare(self.near, self.set, v) {
            return best;
        }
        let order = gather::by_distance(self.near, self.set, v);
        let rows_first = Clearing {
            qubit: v,
            mirrored: false,
        };
        let mirror_first = Clearing {
            qubit: v,
            mirrored: true,
        };
        let n = self.along(&order, rows_first).len();
        let m = self.along(&order, mirror_first).len();
        cheaper(mirror_first, m, cheaper(rows_first, n, best))
    }

    // The choice with fewest CNOTs over the spare qubits, the first in a tie; none where no qubit is
    // spare.
    pub(crate) fn cheapest(&self) -> Option<Best>
        ensures { let i = self.now in result ≡ cheapest_of i.near i.set i.asked i.mirror }
    {
        let mut best = None;
        for v in 0..Job::QUBITS {
            best = self.better(v, best);
        }
        best
    }

    // The island without q, and both kinds of rows after the CNOTs that take it out.
    pub(crate) fn without(&self, q: usize, taking: &Taking) -> Island
        ensures { result ≡ without_of self.now q (gates_in taking.now) }
    {
        let Taking {
            mirrored,
            first,
            second,
        } = taking;
        let mut asked = self.asked;
        rows::moved_all(&mut asked, first.as_slice(), *mirrored);
        rows::moved_all(&mut asked, second.as_slice(), !*mirrored);
        let mut mirror = self.mirror;
        rows::moved_all(&mut mirror, first.as_slice(), !*mirrored);
        rows::moved_all(&mut mirror, second.as_slice(), *mirrored);
        Island {
            near: self.near,
            set: self.set ^ sets::only(q),
            asked,
            mirror,
        }
    }
}

// The cheaper of a choice, which has n CNOTs, and the best one so far.
fn cheaper(choice: Clearing, n: usize, best: Option<Best>) -> Option<Best>
    ensures { result ≡ cheaper_of choice n best }
{
    match best {
        Some(b) if b.cost <= n => best,
        _ => Some(Best { choice, cost: n }),
    }
}
