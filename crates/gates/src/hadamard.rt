// A Hadamard, by its record. It stands between stretches and has no meaning inside one, so that it is no case of `Gate`.
ghost use Rattle.std.specs.Prelude.{◌≡◌};
ghost use Rattle.gates.specs.Hadamards.{is_hadamard};

use crate::record::Record;

// Whether a record is a Hadamard on one of n qubits.
#[tactic(auto, using(std::proofs::lemmas::Bool::Decides::nat_tests), unfolding(crate::specs::Hadamards::is_hadamard))]
pub fn is_hadamard(x: u32, n: usize) -> bool
    ensures { result ≡ is_hadamard n x }
{
    let Record { kind, a, b } = Record::of(x);
    let is_plain = b == 0;
    kind == 4 && a < n && is_plain
}
