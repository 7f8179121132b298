// The qubits that the steps choose.
ghost use Rattle.std.specs.Prelude.{◌≡◌, ◌≤◌, ◌<◌, get_or, MatchOption};
ghost use Rattle.sets.specs.Bit.{has};
ghost use Rattle.gates.specs.Limits.{most_qubits};
ghost use Rattle.spares.specs.Spare.{spare_of};
ghost use Rattle.sets.specs.Tables.{tab};
ghost use Rattle.steps.specs.Choice.{best_of, more_of, sparing, without, beside, partner};

use crate::selection;
use chip::search;
use gates::job::Job;
use spares::spare;
use std::array;

// Of the qubits that may be taken and are worth less than `over` the one of most worth, the lowest in
// a tie; 20 where there is none.
pub fn best(may: [bool; Job::QUBITS], worth: [usize; Job::QUBITS], over: usize) -> usize
    ensures { result ≡ best_of may worth over }
{
    let mut found = Job::QUBITS;
    let mut w = over;
    'search: while 0 < w {
        w -= 1;
        for q in 0..Job::QUBITS {
            if may[q] {
                if worth[q] == w {
                    found = q;
                    break 'search;
                }
            }
        }
    }
    found
}

// The equal entries of rows of n entries, of which so many are ones.
fn equals(n: usize, ones: [usize; Job::QUBITS]) -> [usize; Job::QUBITS]
    ensures { result ≡ tab most_qubits (λ q. more_of n (get_or ones q 0)) }
{
    ones.map(|o| n.saturating_sub(o).max(o))
}

// The spare qubits of `set`.
pub fn spares(near: [u32; Job::QUBITS], set: u32) -> [bool; Job::QUBITS]
    ensures { result ≡ tab most_qubits (spare_of near set) }
{
    array::from_fn(|q| spare::spare(near, set, q))
}

// The spare qubit whose row has most equal entries.
pub fn spared(near: [u32; Job::QUBITS], set: u32, sel: [bool; Job::PARITIES], cols: &[u32]) -> usize
    ensures { result ≡ sparing near set sel cols.now }
{
    let n = selection::count(sel);
    best(
        spares(near, set),
        equals(n, selection::rows(sel, cols)),
        n + 1,
    )
}

pub fn rest(set: u32, r: usize) -> u32
    ensures { result ≡ without set r }
{
    set ^ sets::only(r)
}

// The neighbours of r in `set`.
pub fn neighbours(near: [u32; Job::QUBITS], set: u32, r: usize) -> u32
    ensures { result ≡ beside near set r }
{
    search::neighbours(near, r) & rest(set, r)
}

// The members of a set.
pub fn members(set: u32) -> [bool; Job::QUBITS]
    ensures { result ≡ tab most_qubits (has set) }
{
    array::from_fn(|q| sets::holds(set, q))
}

// The neighbour of r in `set` with most ones.
pub fn partnered(
    near: [u32; Job::QUBITS],
    set: u32,
    r: usize,
    sel: [bool; Job::PARITIES],
    cols: &[u32],
) -> usize
    ensures { result ≡ partner near set r sel cols.now }
{
    let n = selection::count(sel);
    best(
        members(neighbours(near, set, r)),
        selection::rows(sel, cols),
        n + 1,
    )
}
