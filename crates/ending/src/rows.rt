// Asked rows and mirror rows under gates.
ghost use Rattle.std.specs.Prelude.{◌≡◌, [], ◌∷◌, map};
ghost use Rattle.gates.specs.Limits.{most_qubits};
ghost use Rattle.gates.specs.Layout.{gates_of};
ghost use Rattle.gathering.specs.Gather.{cnots_of, turns};
ghost use Rattle.ending.specs.Mirror.{seen};

use columns::turning;
use gates::gate;
use gates::gate::Gate;
use gates::job::Job;
use gathering::gather::Move;

// A gate as the rows see it, or as the mirror rows do: control and target changed over.
pub(crate) fn seen(g: Gate, mirror: bool) -> Gate
    ensures { result ∷ [] ≡ seen mirror (g ∷ []) }
{
    match g {
        Gate::Cnot { control, target } if mirror => Gate::Cnot {
            control: target,
            target: control,
        },
        _ => g,
    }
}

// A row, or a mirror row, after a gate.
fn fed(x: u32, g: Gate, mirror: bool) -> u32
    ensures { result ≡ turns (seen mirror (g ∷ [])) x }
{
    match seen(g, mirror) {
        Gate::Cnot { control, target } => turning::turned(x, control, target),
        _ => x,
    }
}

fn fed_all(rows: &mut [u32; Job::QUBITS], g: Gate, mirror: bool)
    ensures { rows.new ≡ map (turns (seen mirror (g ∷ []))) rows.old }
{
    for x in rows.iter_mut() {
        *x = fed(*x, g, mirror);
    }
}

// A row, or a mirror row, after moves.
pub(crate) fn moved(x: u32, moves: &[Move], mirror: bool) -> u32
    ensures { result ≡ turns (seen mirror (cnots_of moves.now)) x }
{
    let mut y = x;
    for m in moves {
        y = fed(y, m.gate(), mirror);
    }
    y
}

pub(crate) fn moved_all(rows: &mut [u32; Job::QUBITS], moves: &[Move], mirror: bool)
    ensures { rows.new ≡ map (turns (seen mirror (cnots_of moves.now))) rows.old }
{
    for x in rows.iter_mut() {
        *x = moved(*x, moves, mirror);
    }
}

// Rows, or mirror rows, after the gates of the records, each of which is read once for all rows.
pub(crate) fn replayed_all(
    rows: [u32; Job::QUBITS],
    laid: &[u32],
    mirror: bool,
) -> [u32; Job::QUBITS]
    ensures { result ≡ map (turns (seen mirror (gates_of most_qubits laid.now))) rows }
{
    let mut all = rows;
    for &x in laid {
        fed_all(&mut all, gate::decode(x, Job::QUBITS), mirror);
    }
    all
}
