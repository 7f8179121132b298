// The state of the wires: the parity that each bears, and whether it is flipped.
ghost use Rattle.std.specs.Prelude.{◌≡◌, [], get_or};
ghost use Rattle.sets.specs.Columns.{cnot};
ghost use Rattle.circuit.specs.Circuit.{takes};
ghost use Rattle.circuit.specs.Flips.{flip_step};
ghost use Rattle.circuit.specs.Phase.{shifts, phases};
ghost use Rattle.circuit.specs.State.{fed_wires, wires_of};
ghost use Rattle.gates.specs.declared.gate.Gate.TheVariants.{X};

use gates::gate::Gate;
use gates::job::Job;

#[derive(Clone, Copy)]
pub struct Wires {
    pub parity: [u32; Job::QUBITS],
    // 1 where a wire is flipped, else 0: a CNOT joins flips as it joins parities.
    pub flip: [u32; Job::QUBITS],
}

// The parity of wire q, or its flip; 0 past the end.
pub fn borne_on(parity: [u32; Job::QUBITS], q: usize) -> u32
    ensures { result ≡ get_or parity q 0 }
{
    parity.get(q).copied().unwrap_or(0)
}

// A CNOT changes the parities, or the flips; nothing where a wire is past the end.
fn join(next: &mut [u32; Job::QUBITS], control: usize, target: usize)
    ensures { next.new ≡ cnot control target next.old }
{
    if target < Job::QUBITS {
        next[target] = borne_on(*next, control) ^ next[target];
    }
}

// An X changes the flips; nothing where the wire is past the end.
fn turn_over(next: &mut [u32; Job::QUBITS], q: usize)
    ensures { next.new ≡ flip_step (X q) next.old }
{
    if q < Job::QUBITS {
        next[q] = 1 ^ next[q];
    }
}

// The parities, or the flips, after a CNOT.
pub fn joined(parity: [u32; Job::QUBITS], control: usize, target: usize) -> [u32; Job::QUBITS]
    ensures { result ≡ cnot control target parity }
{
    let mut next = parity;
    join(&mut next, control, target);
    next
}

// The flips after an X.
pub fn turned_over(flip: [u32; Job::QUBITS], q: usize) -> [u32; Job::QUBITS]
    ensures { result ≡ flip_step (X q) flip }
{
    let mut next = flip;
    turn_over(&mut next, q);
    next
}

// What an angle comes to in its parity's sum, on a wire of that flip.
#[tactic(auto, using(std::proofs::lemmas::Bool::Decides::nat_tests), unfolding(crate::specs::Circuit::takes))]
pub fn taken(flip: u32, angle: u32) -> u32
    ensures { result ≡ takes flip angle }
{
    if flip == 0 {
        angle
    } else {
        (65536 - angle % 65536) % 65536
    }
}

// And what it adds to the common phase, in half units.
#[tactic(auto, using(std::proofs::lemmas::Bool::Decides::nat_tests), unfolding(crate::specs::Phase::shifts))]
pub fn shift(flip: u32, angle: u32) -> u32
    ensures { result ≡ shifts flip angle }
{
    if flip == 0 { 0 } else { 2 * (angle % 65536) }
}

// Two common phases together.
#[tactic(auto, unfolding(crate::specs::Phase::phases))]
pub fn together(a: u32, b: u32) -> u32
    ensures { result ≡ phases a b }
{
    (a % 131072 + b % 131072) % 131072
}

impl Wires {
    #[tactic(auto, unfolding(crate::specs::State::wires_of, crate::specs::Circuit::run, crate::specs::Circuit::start, sets::specs::Columns::units, crate::specs::Flips::flip_run, crate::specs::Flips::no_flips))]
    pub fn new() -> Self
        ensures { result ≡ wires_of [] }
    {
        Wires {
            parity: [
                1, 2, 4, 8, 16, 32, 64, 128, 256, 512, 1024, 2048, 4096, 8192, 16384, 32768, 65536,
                131072, 262144, 524288,
            ],
            flip: [0; Job::QUBITS],
        }
    }

    // One gate more, in place: it changes one wire at most.
    fn step(&mut self, g: Gate)
        ensures { self.new ≡ fed_wires self.old g }
    {
        match g {
            Gate::Cnot { control, target } => {
                join(&mut self.parity, control, target);
                join(&mut self.flip, control, target);
            }
            Gate::X { qubit } => turn_over(&mut self.flip, qubit),
            Gate::Rotation { .. } | Gate::Bad => {}
        }
    }

    pub fn feed(self, g: Gate) -> Self
        ensures { result ≡ fed_wires self g }
    {
        let mut next = self;
        next.step(g);
        next
    }
}
