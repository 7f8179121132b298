// One island: its terms laid in two ways, each with its closing; the shorter is kept.
ghost use Rattle.gates.specs.Limits.{most_qubits};
ghost use Rattle.gates.specs.Layout.{gates_of};
ghost use Rattle.emitting.specs.Emit.{Emits};
ghost use Rattle.share.specs.OwnTable.{share_in};
ghost use Rattle.ways.specs.Ways.{by_way, with_closing};
ghost use Rattle.ways.specs.Memory.{in_memory, island_in_memory};

use columns::way;
use columns::way::Way;
use emitting::emit;
use ending::{Island, closing};
use gates::gate;
use gates::job::Job;
use nearest::NearestFirst;
use share::own::Own;
use steps::BySteps;
use tallies::tally;

// The gates of the records once more.
pub fn replay(laid: &[u32], out: &mut [u32], at: usize) -> usize
    ensures { Emits out.old at (gates_of most_qubits laid.now) out.new result }
{
    let mut next = at;
    for &x in laid {
        next = emit::put_gate(out, next, gate::decode(x, Job::QUBITS));
    }
    next
}

// The gates that lay the terms, and the closing behind them.
fn closed(own: Own, laid: &[u32], out: &mut [u32]) -> usize
    ensures { Emits out.old 0 (with_closing (share_in own) (gates_of most_qubits laid.now)) out.new result }
{
    let Own {
        near,
        set,
        terms: _,
        asked,
        mirror,
    } = own;
    let island = Island {
        near,
        set,
        asked,
        mirror,
    };
    let at = replay(laid, out, 0);
    closing::close(&island, laid, out, at)
}

// The gates by one way, with the closing.
fn by_way<W: Way>(own: Own, out: &mut [u32]) -> usize
    ensures { Emits out.old 0 (with_closing (share_in own) (in_memory (by_way W.piece_for (share_in own)))) out.new result }
{
    let near = own.near;
    let terms = own.terms;
    let parity = terms.parity;
    let sum = terms.sum;
    let mut laid = [0u32; tally::LARGEST];
    let k = way::lay_terms::<W>(near, own.set, parity, sum, terms.len, &mut laid);
    closed(own, &laid[..k], out)
}

// The gates of the island behind those that are laid: the shorter way, the steps in a tie.
pub fn lay_island(own: Own, out: &mut [u32], at: usize) -> usize
    ensures { Emits out.old at (island_in_memory (share_in own)) out.new result }
{
    let mut first = [0u32; tally::LARGEST];
    let a = by_way::<BySteps>(own, &mut first);
    let mut second = [0u32; tally::LARGEST];
    let b = by_way::<NearestFirst>(own, &mut second);
    let is_shorter = b < a;
    if is_shorter {
        return replay(&second[..b], out, at);
    }
    replay(&first[..a], out, at)
}
