// The ending of an island, and its closing behind what was laid on it.
ghost use Rattle.std.specs.Prelude.{◌≡◌, [], ◌∷◌, ltb, length};
ghost use Rattle.gates.specs.Limits.{most_qubits};
ghost use Rattle.gates.specs.Layout.{gates_of};
ghost use Rattle.emitting.specs.Emit.{Emits};
ghost use Rattle.gathering.specs.Gather.{cnots_of};
ghost use Rattle.ending.specs.Mirror.{seen};
ghost use Rattle.ending.specs.Held.{gates_in};
ghost use Rattle.ending.specs.Closing.{ending_of, back_of, back_first, closing_of};

use crate::clearing::{Island, Taking};
use crate::rows;
use emitting::emit;
use gates::gate;
use gates::gate::Gate;
use gates::job::Job;
use gathering::gather;
use gathering::gather::Move;
use tallies::tally;

// What 31 qubits taken out, each by two gatherings, would lay.
const ROOM: usize = 31 * 2 * gather::MOST;

// Moves of rows, or of mirror rows, are laid.
fn put_moves(out: &mut [u32], at: usize, moves: &[Move], mirror: bool) -> usize
    ensures { Emits out.old at (seen mirror (cnots_of moves.now)) out.new result }
{
    let mut next = at;
    for m in moves {
        next = emit::put_gate(out, next, rows::seen(m.gate(), mirror));
    }
    next
}

// A choice is laid.
fn put_out(out: &mut [u32], at: usize, taking: &Taking) -> usize
    ensures { Emits out.old at (gates_in taking.now) out.new result }
{
    let mid = put_moves(out, at, taking.first.as_slice(), taking.mirrored);
    put_moves(out, mid, taking.second.as_slice(), !taking.mirrored)
}

// The CNOTs that bring each row of the island to its own wire, one qubit taken out after another.
fn ending(island: &Island, out: &mut [u32], at: usize) -> usize
    ensures { let i = island.now in Emits out.old at (ending_of i.near i.set i.asked i.mirror) out.new result }
{
    let is_done = sets::size(island.set) < 2;
    if is_done {
        return at;
    }
    match island.cheapest() {
        None => at,
        Some(best) => {
            let taking = island.taking(best.choice);
            let next = put_out(out, at, &taking);
            ending(&island.without(best.choice.qubit, &taking), out, next)
        }
    }
}

// How many CNOTs the ending has: it is laid into memory of its own.
fn length_of(island: &Island) -> usize
    ensures { let i = island.now in result ≡ length (ending_of i.near i.set i.asked i.mirror) }
{
    // Read for the proof alone: the set is a number of 32 digits, so that there is room.
    let _set = island.set;
    let mut own = [0; ROOM];
    ending(island, &mut own, 0)
}

// A gate is laid if it is a CNOT.
#[tactic(auto, unfolding(emitting::specs::Emit::emit, emitting::specs::Emit::emit_at))]
fn put_cnot_of(out: &mut [u32], at: usize, g: Gate) -> usize
    ensures { Emits out.old at (back_of (g ∷ [])) out.new result }
{
    match g {
        Gate::Cnot { control, target } => emit::put_cnot(out, at, control, target),
        _ => at,
    }
}

// The CNOTs of the records in reverse.
fn put_back(out: &mut [u32], at: usize, laid: &[u32]) -> usize
    ensures { Emits out.old at (back_of (gates_of most_qubits laid.now)) out.new result }
{
    let mut next = at;
    for &x in laid.iter().rev() {
        next = put_cnot_of(out, next, gate::decode(x, Job::QUBITS));
    }
    next
}

// Whether back to the start first, and then the ending from there, is shorter than `onward`. Where
// the way back is no shorter already, that ending is not needed.
fn back_is_shorter(start: &Island, laid: &[u32], onward: usize) -> bool
    ensures { let i = start.now in result ≡ ltb (length (back_first i.near i.set i.asked i.mirror (gates_of most_qubits laid.now))) onward }
{
    let back = tally::cnots(laid, Job::QUBITS);
    back < onward && length_of(start) < onward - back
}

// The closing of the island behind the gates laid on it: the shorter of onward, from where the wires
// stand, and back to the start first; onward in a tie.
pub fn close(start: &Island, laid: &[u32], out: &mut [u32], at: usize) -> usize
    ensures { let i = start.now in Emits out.old at (closing_of i.near i.set i.asked i.mirror (gates_of most_qubits laid.now)) out.new result }
{
    let now = Island {
        asked: rows::replayed_all(start.asked, laid, false),
        mirror: rows::replayed_all(start.mirror, laid, true),
        ..*start
    };
    let onward = length_of(&now);
    if back_is_shorter(start, laid, onward) {
        let next = put_back(out, at, laid);
        return ending(start, out, next);
    }
    ending(&now, out, at)
}
