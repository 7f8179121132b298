// A gate, and the record that holds it.
ghost use Rattle.std.specs.Prelude.{◌≡◌};
ghost use Rattle.gates.specs.Layout.{gate_of, record_of, is_bad};

use crate::record::Record;

#[derive(Clone, Copy)]
pub enum Gate {
    Cnot { control: usize, target: usize },
    Rotation { qubit: usize, angle: u32 },
    X { qubit: usize },
    // Any other record: a list of records is a list of as many gates, place by place.
    Bad,
}

// What a record says of n qubits.
#[tactic(auto, using(std::proofs::lemmas::Bool::Decides::nat_tests), unfolding(crate::specs::Layout::gate_of, crate::specs::Layout::cnot_of, crate::specs::Layout::rotation_of, crate::specs::Layout::x_of))]
pub fn decode(x: u32, n: usize) -> Gate
    ensures { result ≡ gate_of n x }
{
    let Record { kind, a, b } = Record::of(x);
    let target = b as usize;
    let is_plain = b == 0;
    match kind {
        1 if a < n && target < n && a != target => Gate::Cnot { control: a, target },
        2 if a < n => Gate::Rotation { qubit: a, angle: b },
        3 if a < n && is_plain => Gate::X { qubit: a },
        _ => Gate::Bad,
    }
}

// The record of a gate whose numbers fit it; 0, which is no gate's, where it is bad.
#[tactic(auto, unfolding(crate::specs::Layout::record_of))]
pub fn encode(g: Gate) -> u32
    ensures { result ≡ record_of g }
{
    let record = match g {
        Gate::Cnot { control, target } => Record {
            kind: 1,
            a: control % 256,
            b: (target % 65536) as u32,
        },
        Gate::Rotation { qubit, angle } => Record {
            kind: 2,
            a: qubit % 256,
            b: angle % 65536,
        },
        Gate::X { qubit } => Record {
            kind: 3,
            a: qubit % 256,
            b: 0,
        },
        Gate::Bad => return 0,
    };
    record.number()
}

pub fn is_bad(g: Gate) -> bool
    ensures { result ≡ is_bad g }
{
    matches!(g, Gate::Bad)
}
