// A coupler, and the record that holds it.
ghost use Rattle.std.specs.Prelude.{◌≡◌};
ghost use Rattle.gates.specs.Layout.{coupler_of};

use crate::record::Record;

#[derive(Clone, Copy)]
pub struct Coupler {
    pub a: usize,
    pub b: usize,
}

// What a record says of n qubits; `None` where it is wrong.
#[tactic(auto, using(std::proofs::lemmas::Bool::Decides::nat_tests), unfolding(crate::specs::Layout::coupler_of))]
pub fn decode(x: u32, n: usize) -> Option<Coupler>
    ensures { result ≡ coupler_of n x }
{
    let Record { kind, a, b } = Record::of(x);
    let b = b as usize;
    if kind == 0 && a < n && b < n && a != b {
        Some(Coupler { a, b })
    } else {
        None
    }
}
