// The mirror of a list of gates, which the ending needs beside the final parities.
ghost use Rattle.std.specs.Prelude.{◌≡◌, [], ◌∷◌};
ghost use Rattle.circuit.specs.Circuit.{run};
ghost use Rattle.gates.specs.Layout.{gates_of};
ghost use Rattle.gathering.specs.Gather.{exchanged};
ghost use Rattle.ending.specs.Mirror.{mirrors_of};

use circuit::wires;
use circuit::wires::Wires;
use gates::gate;
use gates::gate::Gate;
use gates::job::Job;

#[tactic(auto, unfolding(circuit::specs::Circuit::run, circuit::specs::Circuit::step))]
fn after(rows: [u32; Job::QUBITS], g: Gate) -> [u32; Job::QUBITS]
    ensures { result ≡ run (exchanged (g ∷ [])) rows }
{
    match g {
        Gate::Cnot { control, target } => wires::joined(rows, target, control),
        _ => rows,
    }
}

// The mirror rows of gates on n qubits.
pub fn mirrored(gates: &[u32], n: usize) -> [u32; Job::QUBITS]
    ensures { result ≡ mirrors_of (gates_of n gates.now) }
{
    let mut all = Wires::new().parity;
    for &x in gates {
        let next = after(all, gate::decode(x, n));
        all = next;
    }
    all
}
