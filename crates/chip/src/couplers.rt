// The neighbours that coupler records give to each qubit, and the couplers in order.
ghost use Rattle.std.specs.Prelude.{◌≡◌};
ghost use Rattle.chip.specs.Couplers.{link_of, near_of};
ghost use Rattle.chip.specs.Ordered.{pair_of, ordered_of};

use gates::coupler;
use gates::coupler::Coupler;
use gates::job::Job;

// Each end is a neighbour of the other from now on; nothing changes where one is past the last qubit.
fn link(near: &mut [u32; Job::QUBITS], c: Coupler)
    ensures { near.new ≡ link_of c.a c.b near.old }
{
    if c.a < Job::QUBITS && c.b < Job::QUBITS {
        near[c.a] |= sets::only(c.b);
        near[c.b] |= sets::only(c.a);
    }
}

// The neighbours of each qubit; a record that is no coupler of n qubits gives none.
pub fn near(couplers: &[u32], n: usize) -> [u32; Job::QUBITS]
    ensures { result ≡ near_of n couplers.now }
{
    let mut all = [0; Job::QUBITS];
    for &x in couplers {
        if let Some(c) = coupler::decode(x, n) {
            link(&mut all, c);
        }
    }
    all
}

// The first `len` records, the others are 0.
#[derive(Clone, Copy)]
pub struct Ordered {
    pub records: [u32; Job::COUPLERS],
    pub len: usize,
}

// The lower end is a, and b is a neighbour of it.
#[tactic(auto, using(std::proofs::lemmas::Bool::Decides::nat_tests), unfolding(crate::specs::Ordered::pair_of))]
fn is_pair(neighbours: u32, a: usize, b: usize) -> bool
    ensures { result ≡ pair_of neighbours a b }
{
    a < b && sets::holds(neighbours, b)
}

// The couplers lower end first, ascending, each once. Pair number k is k / 20, k % 20.
pub fn in_order(near: [u32; Job::QUBITS]) -> Ordered
    ensures { result ≡ ordered_of near }
{
    let mut records = [0; Job::COUPLERS];
    let mut len = 0;
    for k in 0..Job::QUBITS * Job::QUBITS {
        let a = k / Job::QUBITS;
        let b = k % Job::QUBITS;
        if is_pair(near[a], a, b) {
            records[len] = (a * 65536 + b) as u32;
            len += 1;
        }
    }
    Ordered { records, len }
}
