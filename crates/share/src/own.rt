// What belongs to one island: it is handed nothing else, so nothing else can change its gates.
ghost use Rattle.std.specs.Prelude.{◌≡◌};
ghost use Rattle.share.specs.Own.{mine, own_sets, inside_of};
ghost use Rattle.share.specs.OwnTable.{masked_sum, masked_sums, own_table, own_of};

use gates::job::Job;
use std::array;
use table::sums::Sums;

#[derive(Clone, Copy)]
pub struct Own {
    pub near: [u32; Job::QUBITS],
    pub set: u32,
    pub terms: Sums,
    pub asked: [u32; Job::QUBITS],
    pub mirror: [u32; Job::QUBITS],
}

#[tactic(auto, unfolding(crate::specs::Own::inside_of))]
pub fn inside(set: u32, p: u32) -> bool
    ensures { result ≡ inside_of set p }
{
    p & set == p
}

#[tactic(auto, unfolding(crate::specs::Own::mine))]
fn own_set(set: u32, i: usize, x: u32) -> u32
    ensures { result ≡ mine set i x }
{
    if sets::holds(set, i) { x & set } else { 0 }
}

// The sets of the island's qubits, with its qubits only.
fn own_sets(set: u32, xs: [u32; Job::QUBITS]) -> [u32; Job::QUBITS]
    ensures { result ≡ own_sets set xs }
{
    array::from_fn(|i| own_set(set, i, xs[i]))
}

#[tactic(auto, unfolding(crate::specs::OwnTable::masked_sum))]
fn own_sum(set: u32, p: u32, a: u32) -> u32
    ensures { result ≡ masked_sum set p a }
{
    if inside(set, p) { a } else { 0 }
}

// The sums of the parities inside the island, 0 for the others.
fn own_sums(
    set: u32,
    parity: [u32; Job::PARITIES],
    sum: [u32; Job::PARITIES],
) -> [u32; Job::PARITIES]
    ensures { result ≡ masked_sums set parity sum }
{
    array::from_fn(|k| own_sum(set, parity[k], sum[k]))
}

// The terms inside the island.
fn own_terms(set: u32, s: Sums) -> Sums
    ensures { result ≡ own_table set s }
{
    let sum = own_sums(set, s.parity, s.sum);
    Sums { sum, ..s }.terms()
}

pub fn handed(
    set: u32,
    near: [u32; Job::QUBITS],
    sums: Sums,
    asked: [u32; Job::QUBITS],
    mirror: [u32; Job::QUBITS],
) -> Own
    ensures { result ≡ own_of set near sums asked mirror }
{
    Own {
        near: own_sets(set, near),
        set,
        terms: own_terms(set, sums),
        asked: own_sets(set, asked),
        mirror: own_sets(set, mirror),
    }
}
