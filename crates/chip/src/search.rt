// The search over a chip: two sets of qubits as numbers, those reached and those still to look at.
ghost use Rattle.std.specs.Prelude.{◌≡◌, get_or};
ghost use Rattle.gates.specs.Limits.{most_qubits};
ghost use Rattle.chip.specs.Graph.{closure};

use gates::job::Job;

// The neighbours of u; past the last qubit there are none.
pub fn neighbours(near: [u32; Job::QUBITS], u: usize) -> u32
    ensures { result ≡ get_or near u 0 }
{
    near.get(u).copied().unwrap_or(0)
}

// `from`, and all that chains inside `within` join to it. Each turn looks at the lowest that is left:
// its neighbours not yet reached are reached now, and left to look at.
pub fn reached(near: [u32; Job::QUBITS], within: u32, from: u32) -> u32
    ensures { result ≡ closure near within most_qubits from }
{
    let mut reached = from;
    let mut left = from;
    while left != 0 {
        let u = sets::lowest(left);
        let next = reached | (neighbours(near, u) & within);
        left = (left ^ sets::only(u)) ^ (next ^ reached);
        reached = next;
    }
    reached
}
