// Moves are laid, and columns that become single are struck off after each of them.
ghost use Rattle.columns.specs.Worked.{Worked};
ghost use Rattle.gathering.specs.Gather.{cnots_of};
ghost use Rattle.nearest.specs.Moves.{lay_move, lay_moves};
ghost use Rattle.nearest.specs.Nearest.{gather_next};

use crate::orders::Orders;
use columns::turning;
use columns::work::Work;
use gathering::gather;
use gathering::gather::Move;

fn lay_move(work: &mut Work, control: usize, target: usize)
    ensures { Worked work.old work.new (lay_move work.old.angles.now control target work.old.cols.now) }
{
    work.lay_cnot(control, target);
    work.strike();
}

fn lay_moves(work: &mut Work, moves: &[Move])
    ensures { Worked work.old work.new (lay_moves work.old.angles.now (cnots_of moves.now) work.old.cols.now) }
{
    for m in moves {
        lay_move(work, m.to, m.by);
    }
}

// Column k is gathered at v.
pub(crate) fn gather_next(orders: &Orders, work: &mut Work, k: usize, v: usize)
    ensures { Worked work.old work.new (gather_next orders.now.near work.old.angles.now orders.now.set k v work.old.cols.now) }
{
    let x = turning::entry(work.columns(), k);
    let moves = gather::gather(orders.near, orders.set, v, x);
    lay_moves(work, moves.as_slice());
}
