// The X gates of an island: one on each of its wires that is asked to end flipped. It knows
// circuits, and nothing of what is laid before them.
#![tactic(auto)]

ghost use Rattle.std.specs.Prelude.{◌≡◌};
ghost use Rattle.emitting.specs.Emit.{Emits};
ghost use Rattle.flips.specs.Xs.{asks_flip, xs_on};

use circuit::wires;
use emitting::emit;
use gates::gate::Gate;
use gates::job::Job;

// Whether wire q of the set is to end flipped.
fn asks_flip(set: u32, flip: [u32; Job::QUBITS], q: usize) -> bool
    ensures { result ≡ asks_flip set flip q }
{
    sets::holds(set, q) && wires::borne_on(flip, q) != 0
}

// Behind what is laid, by ascending qubit.
pub fn put_xs(set: u32, flip: [u32; Job::QUBITS], out: &mut [u32], at: usize) -> usize
    ensures { Emits out.old at (xs_on set flip) out.new result }
{
    let mut next = at;
    for q in 0..Job::QUBITS {
        if asks_flip(set, flip, q) {
            next = emit::put_gate(out, next, Gate::X { qubit: q });
        }
    }
    next
}
