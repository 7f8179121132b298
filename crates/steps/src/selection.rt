// Selected columns: a set of places, handed down by value.
ghost use Rattle.std.specs.Prelude.{◌≡◌};
ghost use Rattle.gates.specs.Limits.{most_qubits};
ghost use Rattle.sets.specs.Tables.{tab};
ghost use Rattle.steps.specs.Selection.{count_of, zero_at, one_at, zeros_of, ones_of, live_of, row_of, Few, tallied_of};

use columns::turning;
use gates::job::Job;
use std::array;

// These run at each step, so they are loops that end with the columns: chains with `filter` and `count`,
// and `from_fn` over all places, were measured at up to twelve times the instructions. Two lists go by
// index: `row` with a `zip` took 2 % more in the whole of `lay`.

// How many columns are selected.
pub fn count(sel: [bool; Job::PARITIES]) -> usize
    ensures { result ≡ count_of sel }
{
    let mut n = 0;
    for chosen in sel {
        if chosen {
            n += 1;
        }
    }
    n
}

// A column that is selected and not struck off has 0 at r.
#[tactic(auto, unfolding(crate::specs::Selection::zero_at))]
pub fn is_zero(r: usize, chosen: bool, x: u32) -> bool
    ensures { result ≡ zero_at r chosen x }
{
    chosen && x != 0 && !sets::holds(x, r)
}

// A column that is selected has 1 at r.
#[tactic(auto, unfolding(crate::specs::Selection::one_at))]
pub fn is_one(r: usize, chosen: bool, x: u32) -> bool
    ensures { result ≡ one_at r chosen x }
{
    chosen && sets::holds(x, r)
}

// The selected columns with 0 at r.
pub fn zeros(r: usize, sel: [bool; Job::PARITIES], cols: &[u32]) -> [bool; Job::PARITIES]
    ensures { result ≡ zeros_of r sel cols.now }
{
    let mut z = [false; Job::PARITIES];
    let n = cols.len().min(Job::PARITIES);
    for k in 0..n {
        z[k] = is_zero(r, sel[k], cols[k]);
    }
    z
}

// The selected columns with 1 at r.
pub fn with_one(r: usize, sel: [bool; Job::PARITIES], cols: &[u32]) -> [bool; Job::PARITIES]
    ensures { result ≡ ones_of r sel cols.now }
{
    let mut z = [false; Job::PARITIES];
    let n = cols.len().min(Job::PARITIES);
    for k in 0..n {
        z[k] = is_one(r, sel[k], cols[k]);
    }
    z
}

// The columns not struck off.
pub fn live(cols: &[u32]) -> [bool; Job::PARITIES]
    ensures { result ≡ live_of cols.now }
{
    let mut z = [false; Job::PARITIES];
    let n = cols.len().min(Job::PARITIES);
    for k in 0..n {
        z[k] = cols[k] != 0;
    }
    z
}

// The ones of each row so far, and those of the column x.
fn tallied(z: [usize; Job::QUBITS], x: u32) -> [usize; Job::QUBITS]
    requires { Few z }
    ensures { result ≡ tallied_of x z }
{
    array::from_fn(|q| z[q] + usize::from(sets::holds(x, q)))
}

// The ones in each row, among the selected columns: one pass over the columns serves all rows.
pub fn rows(sel: [bool; Job::PARITIES], cols: &[u32]) -> [usize; Job::QUBITS]
    ensures { result ≡ tab most_qubits (row_of sel cols.now) }
{
    let mut z = [0; Job::QUBITS];
    for (k, &chosen) in sel.iter().enumerate() {
        if chosen {
            // A call may not lay its array in `z` itself.
            let next = tallied(z, turning::entry(cols, k));
            z = next;
        }
    }
    z
}

// The ones in row q, among the selected columns.
pub fn row(q: usize, sel: [bool; Job::PARITIES], cols: &[u32]) -> usize
    ensures { result ≡ row_of sel cols.now q }
{
    let n = cols.len().min(Job::PARITIES);
    let mut ones = 0;
    for k in 0..n {
        if is_one(q, sel[k], cols[k]) {
            ones += 1;
        }
    }
    ones
}
