// Columns of one qubit are laid as rotations and struck off.
ghost use Rattle.std.specs.Prelude.{◌≡◌, length};
ghost use Rattle.columns.specs.Striking.{lone_at, alone_of, singles_of, strike_one, strike_row, strike_off};
ghost use Rattle.columns.specs.Worked.{Worked};

use crate::turning;
use crate::work::Work;
use emitting::emit;
use gates::job::Job;

// The column x is the qubit q alone.
#[tactic(auto, unfolding(crate::specs::Striking::lone_at))]
fn is_lone(x: u32, q: usize) -> bool
    ensures { result ≡ lone_at q x }
{
    sets::single(x) && sets::lowest(x) == q
}

// A column of one qubit; the empty set for any other.
#[tactic(auto, unfolding(crate::specs::Striking::alone_of))]
fn alone(x: u32) -> u32
    ensures { result ≡ alone_of x }
{
    if sets::single(x) { x } else { 0 }
}

// The qubits that are columns by themselves. No column ends the pass early, so that several can be
// looked at at once.
fn singles(cols: &[u32]) -> u32
    ensures { result ≡ singles_of cols.now }
{
    let mut s = 0;
    for &x in cols {
        s |= alone(x);
    }
    s
}

impl<'a> Work<'a> {
    // The column k, where it is the qubit q alone.
    fn strike_one(&mut self, k: usize, q: usize)
        ensures { Worked self.old self.new (strike_one q self.old.angles.now k self.old.cols.now) }
    {
        if k < self.cols.len() && is_lone(self.cols[k], q) {
            self.cols[k] = 0;
            self.at = emit::put_rotation(self.out, self.at, q, turning::entry(self.angles, k));
        }
    }

    // Every column that is the qubit q alone, by its place: its angle has the same.
    fn strike_row(&mut self, q: usize)
        ensures { Worked self.old self.new (strike_row (length self.old.cols.now) 0 q self.old.angles.now self.old.cols.now) }
    {
        for k in 0..self.cols.len() {
            self.strike_one(k, q);
        }
    }

    // Every column of one qubit, lowest qubit first. After most CNOTs there is nothing to strike off,
    // and one pass over the columns shows it.
    pub fn strike(&mut self)
        ensures { Worked self.old self.new (strike_off self.old.angles.now self.old.cols.now) }
    {
        let s = singles(self.columns());
        if s == 0 {
            return;
        }
        for q in 0..Job::QUBITS {
            if sets::holds(s, q) {
                self.strike_row(q);
            }
        }
    }
}
