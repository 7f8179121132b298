// Test 7: whether the meaning stays inside the islands.
ghost use Rattle.std.specs.Prelude.{◌≡◌, ◌≤◌, ◌<◌, get_or};
ghost use Rattle.gates.specs.Limits.{most_qubits};
ghost use Rattle.sets.specs.Size.{lowest_of};
ghost use Rattle.sets.specs.Search.{found_of};
ghost use Rattle.judging.specs.Tests.{leaves_at, scatters, scattered};

use gates::job::Job;
use share::own;

#[tactic(auto, unfolding(crate::specs::Tests::leaves_at))]
fn leaves(islands: [u32; Job::QUBITS], parity: [u32; Job::QUBITS], i: usize) -> bool
    requires { i < most_qubits }
    ensures { result ≡ leaves_at islands parity i }
{
    !own::inside(islands[i], parity[i])
}

// The lowest wire whose parity leaves its island.
pub(crate) fn stray(
    n: usize,
    islands: [u32; Job::QUBITS],
    parity: [u32; Job::QUBITS],
) -> Option<usize>
    requires { n ≤ most_qubits }
    ensures { result ≡ found_of (leaves_at islands parity) n }
{
    for i in 0..n {
        if leaves(islands, parity, i) {
            return Some(i);
        }
    }
    None
}

fn island_of(islands: [u32; Job::QUBITS], p: u32) -> u32
    ensures { result ≡ get_or islands (lowest_of p) 0 }
{
    islands.get(sets::lowest(p)).copied().unwrap_or(0)
}

#[tactic(auto, unfolding(crate::specs::Tests::scatters))]
fn is_scattered(islands: [u32; Job::QUBITS], p: u32) -> bool
    ensures { result ≡ scatters islands p }
{
    !own::inside(island_of(islands, p), p)
}

// Some parity is inside no island.
pub(crate) fn some_scattered(islands: [u32; Job::QUBITS], parities: &[u32]) -> bool
    ensures { result ≡ scattered islands parities.now }
{
    parities.iter().any(|&p| is_scattered(islands, p))
}
