// Which column is gathered next, and at which of its qubits: the nearest.
ghost use Rattle.std.specs.Prelude.{◌≡◌, true, ◌<◌, min, length};
ghost use Rattle.gates.specs.Limits.{most_qubits};
ghost use Rattle.sets.specs.Bit.{has};
ghost use Rattle.gathering.specs.Gather.{gather_of};
ghost use Rattle.nearest.specs.Choice.{tried_at, over_qubits, chosen, found, out_at, least_of, detour_of};
ghost use Rattle.nearest.specs.Sure.{Works, Whenever};

use crate::orders::Orders;
use columns::turning;
use gates::job::Job;
use gathering::gather;

// More moves than any gathering has.
const FAR: usize = gather::MOST + 1;

// A column, one of its qubits, and how many moves gather it there.
#[derive(Clone, Copy)]
pub struct Choice {
    pub column: usize,
    pub qubit: usize,
    pub moves: usize,
}

// How many moves take a qubit out of a set, and what they leave of it.
#[derive(Clone, Copy)]
struct Out {
    moves: usize,
    left: u32,
}

// u is taken out of x; `beside` has the neighbours of u that come earlier.
fn out_of(beside: u32, u: usize, x: u32) -> Out
    ensures { result ≡ out_at beside u x }
{
    let own = x & sets::only(u);
    if own == 0 {
        return Out { moves: 0, left: x };
    }
    if beside & x != 0 {
        return Out {
            moves: 1,
            left: x ^ own,
        };
    }
    if beside == 0 {
        return Out { moves: 0, left: x };
    }
    let p = sets::lowest(beside);
    Out {
        moves: 2,
        left: x ^ sets::only(p) ^ own,
    }
}

// How many moves more there are, and one, at least: a move takes out one qubit at most.
fn least(whole: bool, x: u32) -> usize
    ensures { result ≡ least_of whole x }
{
    if whole { sets::size(x) } else { 0 }
}

// How many of the moves that take out one qubit leave the set as large as it was: both of two, for
// the first puts a qubit in.
fn detour(moves: usize) -> usize
    ensures { result ≡ detour_of moves }
{
    if moves == 2 { 2 } else { 0 }
}

impl Orders {
    // Whether every gathering of x is sure to work.
    fn works(&self, x: u32) -> bool
        ensures { Whenever result (Works self.now.near self.now.set x) }
    {
        self.sure && x & self.set == x
    }

    // How many moves gather x at v; no more are counted than `most`. It stops where there are sure to
    // be as many.
    fn count(&self, x: u32, v: usize, most: usize) -> usize
        requires { (v < most_qubits) × (has x v ≡ true) }
        ensures { result ≡ min most (length (gather_of self.now.near self.now.set v x)) }
    {
        let [_, others @ ..] = self.from[v].as_slice() else {
            return 0;
        };
        let mut earlier = self.set;
        let mut left = x;
        let mut n = 0;
        // How many there are at least, and one.
        let mut bound = least(self.works(x), x);
        for &u in others.iter().rev() {
            if most < bound {
                return most;
            }
            earlier ^= sets::only(u);
            let out = out_of(turning::entry(&self.near, u) & earlier, u, left);
            n += out.moves;
            bound += detour(out.moves);
            left = out.left;
        }
        n.min(most)
    }

    // The nearer of b and column k, which is x, gathered at its qubit v.
    fn tried(&self, k: usize, x: u32, v: usize, b: Choice) -> Choice
        requires { (v < most_qubits) × (has x v ≡ true) }
        ensures { result ≡ tried_at self.now.near self.now.set k x v b }
    {
        let n = self.count(x, v, b.moves);
        if n < b.moves {
            return Choice {
                column: k,
                qubit: v,
                moves: n,
            };
        }
        b
    }

    // The nearest of b and the members of x, which is column k.
    fn over_qubits(&self, k: usize, x: u32, b: Choice) -> Choice
        ensures { result ≡ over_qubits self.now.near self.now.set k x most_qubits 0 b }
    {
        let mut best = b;
        let mut left = x;
        while left != 0 {
            let v = sets::lowest(left);
            if Job::QUBITS <= v {
                return best;
            }
            left ^= sets::only(v);
            best = self.tried(k, x, v, best);
        }
        best
    }

    // The same; a column with more qubits than b has moves is no nearer.
    fn over_column(&self, k: usize, x: u32, b: Choice) -> Choice
        ensures { result ≡ over_qubits self.now.near self.now.set k x most_qubits 0 b }
    {
        let is_farther = b.moves < sets::size(x);
        if is_farther && self.works(x) {
            return b;
        }
        self.over_qubits(k, x, b)
    }

    // The nearest of all columns, if there is one.
    pub(crate) fn choose(&self, cols: &[u32]) -> Option<Choice>
        ensures { result ≡ found (chosen self.now.near self.now.set cols.now) }
    {
        let mut best = Choice {
            column: 0,
            qubit: 0,
            moves: FAR,
        };
        for (k, &x) in cols.iter().enumerate() {
            best = self.over_column(k, x, best);
        }
        if best.moves < FAR { Some(best) } else { None }
    }
}
