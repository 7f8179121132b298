// The base step and the ones step, which call each other.
ghost use Rattle.columns.specs.Worked.{Worked};
ghost use Rattle.steps.specs.Steps.{crossed, moved, ones_step, base_step};

use crate::{choice, selection};
use columns::work::Work;
use gates::job::Job;

// The CNOTs of a ones step on r and its neighbour m, whose row has `ones` ones.
pub fn cross(work: &mut Work, r: usize, m: usize, ones: usize)
    ensures { Worked work.old work.new (crossed r m ones work.old.cols.now) }
{
    if ones == 0 {
        work.lay_cnot(m, r);
    }
    work.lay_cnot(r, m);
}

pub fn move_on(work: &mut Work, r: usize, m: usize, ones: usize)
    ensures { Worked work.old work.new (moved work.old.angles.now r m ones work.old.cols.now) }
{
    cross(work, r, m, ones);
    work.strike();
}

// The base step on `set` and the selected columns. It falls by `qubits`, the qubits left.
#[cycle(base_ones)]
pub fn base(
    work: &mut Work,
    near: [u32; Job::QUBITS],
    sel: [bool; Job::PARITIES],
    set: u32,
    qubits: usize,
)
    ensures { Worked work.old work.new (base_step qubits near work.old.angles.now set sel work.old.cols.now) }
{
    if qubits == 0 {
        return;
    }
    if selection::count(sel) == 0 {
        return;
    }
    let r = choice::spared(near, set, sel, work.columns());
    let zeros = selection::zeros(r, sel, work.columns());
    let with_one = selection::with_one(r, sel, work.columns());
    base(work, near, zeros, choice::rest(set, r), qubits - 1);
    ones(
        work,
        near,
        with_one,
        set,
        r,
        qubits - 1,
        selection::count(with_one),
    );
}

// The ones step on `set`, its qubit r and the selected columns. It falls by `columns`, the columns
// left; the base step below it has `qubits` qubits left.
#[cycle(base_ones)]
pub fn ones(
    work: &mut Work,
    near: [u32; Job::QUBITS],
    sel: [bool; Job::PARITIES],
    set: u32,
    r: usize,
    qubits: usize,
    columns: usize,
)
    ensures { Worked work.old work.new (ones_step columns (base_step qubits near work.old.angles.now) near work.old.angles.now set r sel work.old.cols.now) }
{
    if columns == 0 {
        return;
    }
    if selection::count(sel) == 0 {
        return;
    }
    let m = choice::partnered(near, set, r, sel, work.columns());
    let row = selection::row(m, sel, work.columns());
    move_on(work, r, m, row);
    let freed = selection::zeros(r, sel, work.columns());
    let held = selection::with_one(r, sel, work.columns());
    base(work, near, freed, choice::rest(set, r), qubits);
    ones(work, near, held, set, r, qubits, columns - 1);
}
