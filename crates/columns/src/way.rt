// A way of laying an island's terms, and what all ways do alike.
ghost use Rattle.std.specs.Prelude.{◌≡◌, ℕ, List, take};
ghost use Rattle.emitting.specs.Emit.{Emits};
ghost use Rattle.columns.specs.Pieces.{Piece};
ghost use Rattle.columns.specs.Worked.{Worked};

use crate::work::Work;
use gates::job::Job;

pub trait Way {
    // What becomes of columns with their angles, by the neighbours inside the island and its qubits.
    ghost piece_for: { List ℕ → ℕ → List ℕ → List ℕ → Piece };

    // Lays the columns of the island `set`.
    fn lay(near: [u32; Job::QUBITS], set: u32, work: &mut Work)
        ensures { Worked work.old work.new (piece_for near set work.old.cols.now work.old.angles.now) };
}

// Lays the terms of the island `set`: the first `count` parities, ascending, with their angles.
// The neighbours are those inside the island.
pub fn lay_terms<W: Way>(
    near: [u32; Job::QUBITS],
    set: u32,
    parity: [u32; Job::PARITIES],
    angle: [u32; Job::PARITIES],
    count: usize,
    out: &mut [u32],
) -> usize
    ensures { Emits out.old 0 (W.piece_for near set (take count parity) (take count angle)).laid out.new result }
{
    let n = count.min(Job::PARITIES);
    let mut cols = parity;
    let mut work = Work {
        cols: &mut cols[..n],
        angles: &angle[..n],
        out,
        at: 0,
    };
    W::lay(near, set, &mut work);
    work.at
}
