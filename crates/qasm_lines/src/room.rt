// Whether a circuit's lines fit a room: each is taken off it.
ghost use Rattle.std.specs.Prelude.{◌≡◌, length};
ghost use Rattle.lines.specs.Room.{room_after};
ghost use Rattle.qasm_lines.specs.Spelling.{gates_text, head_text, phase_text};

use crate::spelling;
use crate::spelling::GateLines;
use lines::records;
use versions::Version;

pub fn after_head(room: Option<usize>, version: Version, n: usize) -> Option<usize>
    ensures { result ≡ room_after room (length (head_text version n)) }
{
    spelling::head(version, n).after(room)
}

#[tactic(auto, using(crate::proofs::Placed::gates_joined))]
pub fn after_gates(room: Option<usize>, version: Version, gates: &[u32]) -> Option<usize>
    ensures { result ≡ room_after room (length (gates_text version gates.now)) }
{
    records::after_lines(&GateLines { version }, room, gates)
}

pub fn after_phase(room: Option<usize>, version: Version, phase: u32) -> Option<usize>
    ensures { result ≡ room_after room (length (phase_text version phase)) }
{
    match spelling::phase(version, phase) {
        None => room,
        Some(line) => line.after(room),
    }
}
