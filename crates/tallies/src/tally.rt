// Counts of a list of gates, and the bound.
ghost use Rattle.std.specs.Prelude.{◌≡◌};
ghost use Rattle.gates.specs.Layout.{gates_of};
ghost use Rattle.tallies.specs.Tally.{cnots_of, rotations_of, bound_of};

use gates::gate;
use gates::gate::Gate;
use gates::job::Job;

pub fn cnots(records: &[u32], n: usize) -> usize
    ensures { result ≡ cnots_of (gates_of n records.now) }
{
    records
        .iter()
        .filter(|&&x| matches!(gate::decode(x, n), Gate::Cnot { .. }))
        .count()
}

pub fn rotations(records: &[u32], n: usize) -> usize
    ensures { result ≡ rotations_of (gates_of n records.now) }
{
    records
        .iter()
        .filter(|&&x| matches!(gate::decode(x, n), Gate::Rotation { .. }))
        .count()
}

// The largest B of a stretch.
pub const LARGEST: usize = 2 * (Job::QUBITS - 1) * Job::PARITIES
    + Job::PARITIES
    + 2 * Job::QUBITS * (Job::QUBITS - 1)
    + Job::QUBITS;

// How many output records the laying of t terms on n qubits may need.
#[tactic(auto, unfolding(crate::specs::Tally::bound_of))]
pub fn bound(n: u8, t: u16) -> usize
    ensures { result ≡ bound_of n t }
{
    let t = t as usize;
    let n = n as usize;
    let others = n.saturating_sub(1);
    2 * others * t + t + 2 * n * others + n
}
