// Laid gates go one behind another into a lent list of records, as many as there is room for.
ghost use Rattle.std.specs.Prelude.{◌≡◌, [], ◌∷◌, set};
ghost use Rattle.gates.specs.declared.gate.Gate.TheVariants.{Cnot, Rotation};
ghost use Rattle.emitting.specs.Emit.{next_at, Emits};

use gates::gate;
use gates::gate::Gate;

// One record more, and the next place; nothing changes where there is no room. By index, since what
// `get_mut` lends is forgotten behind it.
#[tactic(auto, unfolding(crate::specs::Emit::next_at))]
pub fn put(out: &mut [u32], at: usize, x: u32) -> usize
    ensures stored { out.new ≡ set out.old at x }
    ensures next { result ≡ next_at out.old at }
{
    if at < out.len() {
        out[at] = x;
        at + 1
    } else {
        at
    }
}

pub fn put_gate(out: &mut [u32], at: usize, g: Gate) -> usize
    ensures { Emits out.old at (g ∷ []) out.new result }
{
    put(out, at, gate::encode(g))
}

pub fn put_cnot(out: &mut [u32], at: usize, control: usize, target: usize) -> usize
    ensures { Emits out.old at (Cnot control target ∷ []) out.new result }
{
    put_gate(out, at, Gate::Cnot { control, target })
}

pub fn put_rotation(out: &mut [u32], at: usize, qubit: usize, angle: u32) -> usize
    ensures { Emits out.old at (Rotation qubit angle ∷ []) out.new result }
{
    put_gate(out, at, Gate::Rotation { qubit, angle })
}
