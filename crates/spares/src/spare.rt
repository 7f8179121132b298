// Connected sets, and the qubits that can be spared from them.
ghost use Rattle.std.specs.Prelude.{◌≡◌};
ghost use Rattle.chip.specs.Graph.{nbrs, grow};
ghost use Rattle.spares.specs.Spare.{connected_of, spare_of};

use chip::search;
use gates::job::Job;

// The neighbours of the members of `set`.
fn beside(near: [u32; Job::QUBITS], set: u32) -> u32
    ensures { result ≡ nbrs set near }
{
    let mut all = 0;
    for (u, &neighbours) in near.iter().enumerate() {
        if sets::holds(set, u) {
            all |= neighbours;
        }
    }
    all
}

// `set` and its neighbours inside `within`.
pub fn grown(near: [u32; Job::QUBITS], within: u32, set: u32) -> u32
    ensures { result ≡ grow near within set }
{
    set | (beside(near, set) & within)
}

// Chains inside `set` join all its members; so they do where it has none.
pub fn connected(near: [u32; Job::QUBITS], set: u32) -> bool
    ensures { result ≡ connected_of near set }
{
    search::reached(near, set, sets::only(sets::lowest(set))) == set
}

// q is a member of `set`, and its removal leaves the set connected.
pub fn spare(near: [u32; Job::QUBITS], set: u32, q: usize) -> bool
    ensures { result ≡ spare_of near set q }
{
    sets::holds(set, q) && connected(near, set ^ sets::only(q))
}
