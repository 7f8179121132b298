// Whether every gathering is sure to work. An island's are, and the search for the nearest is then
// shorter.
ghost use Rattle.std.specs.Prelude.{◌<◌};
ghost use Rattle.gates.specs.Limits.{most_qubits};
ghost use Rattle.chip.specs.Graph.{Symm};
ghost use Rattle.nearest.specs.Sure.{Tested, Answered, Mutual, Whenever};

use gates::job::Job;
use spares::spare;

// A set of a job's qubits is below this.
const ABOVE: u32 = 1048576;

// u, where v is a neighbour of it, is one of v.
fn answered(near: [u32; Job::QUBITS], u: usize, v: usize) -> bool
    requires { (u < most_qubits) × (v < most_qubits) }
    ensures { Whenever result (Answered near u v) }
{
    !sets::holds(near[u], v) || sets::holds(near[v], u)
}

fn mutual_at(near: [u32; Job::QUBITS], u: usize) -> bool
    requires { u < most_qubits }
    ensures { Whenever result (Mutual near u) }
{
    near[u] < ABOVE && (0..Job::QUBITS).all(|v| answered(near, u, v))
}

fn mutual(near: [u32; Job::QUBITS]) -> bool
    ensures { Whenever result (Symm near) }
{
    (0..Job::QUBITS).all(|u| mutual_at(near, u))
}

pub(crate) fn sure(near: [u32; Job::QUBITS], set: u32) -> bool
    ensures { Whenever result (Tested near set) }
{
    if ABOVE <= set {
        return false;
    }
    mutual(near) && spare::connected(near, set)
}
