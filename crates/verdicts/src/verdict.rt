// What an entry point says of its input: nothing, or a row of document 01's table.
ghost use Rattle.std.specs.Prelude.{◌≡◌};
ghost use Rattle.verdicts.specs.Verdicts.{number_of, place_of, judged_qubits, judged_couplers, judged_gates, is_neither, judged_drawn};

use gates::job::Job;
use gates::{coupler, gate, hadamard};

#[derive(Clone, Copy, Debug, PartialEq, Eq)]
pub enum Refusal {
    Qubits,
    ManyCouplers,
    WrongCoupler(usize),
    ManyGates,
    BadGate(usize),
    ManyParities(usize),
    Unreachable(usize),
    Room,
    Line(usize),
    LongText,
    Angle(usize),
    Statement(usize),
    Unversioned,
}

pub type Verdict = Result<(), Refusal>;

pub fn number(v: Verdict) -> u32
    ensures { result ≡ number_of v }
{
    match v {
        Ok(()) => 0,
        Err(Refusal::Qubits) => 1,
        Err(Refusal::ManyCouplers) => 2,
        Err(Refusal::WrongCoupler(_)) => 3,
        Err(Refusal::ManyGates) => 4,
        Err(Refusal::BadGate(_)) => 5,
        Err(Refusal::ManyParities(_)) => 6,
        Err(Refusal::Unreachable(_)) => 7,
        Err(Refusal::Room) => 8,
        Err(Refusal::Line(_)) => 10,
        Err(Refusal::LongText) => 11,
        Err(Refusal::Angle(_)) => 12,
        Err(Refusal::Statement(_)) => 13,
        Err(Refusal::Unversioned) => 14,
    }
}

pub fn place(v: Verdict) -> usize
    ensures { result ≡ place_of v }
{
    match v {
        Ok(()) => 0,
        Err(Refusal::Qubits) => 0,
        Err(Refusal::ManyCouplers) => 0,
        Err(Refusal::WrongCoupler(k)) => k,
        Err(Refusal::ManyGates) => 0,
        Err(Refusal::BadGate(k)) => k,
        Err(Refusal::ManyParities(k)) => k,
        Err(Refusal::Unreachable(k)) => k,
        Err(Refusal::Room) => 0,
        Err(Refusal::Line(k)) => k,
        Err(Refusal::LongText) => 0,
        Err(Refusal::Angle(k)) => k,
        Err(Refusal::Statement(k)) => k,
        Err(Refusal::Unversioned) => 1,
    }
}

// Test 1.
#[tactic(auto, unfolding(crate::specs::Verdicts::judged_qubits))]
pub fn judge_qubits(n: usize) -> Verdict
    ensures { result ≡ judged_qubits n }
{
    if n < 1 || Job::QUBITS < n {
        return Err(Refusal::Qubits);
    }
    Ok(())
}

// Tests 2 and 3.
pub fn judge_couplers(couplers: &[u32], n: usize) -> Verdict
    ensures { result ≡ judged_couplers n couplers.now }
{
    if Job::COUPLERS < couplers.len() {
        return Err(Refusal::ManyCouplers);
    }
    match couplers
        .iter()
        .position(|&x| coupler::decode(x, n).is_none())
    {
        Some(k) => Err(Refusal::WrongCoupler(k)),
        None => Ok(()),
    }
}

// Test 5 of one stretch. (Test 4 counts gates only where they are laid.)
pub fn judge_gates(gates: &[u32], n: usize) -> Verdict
    ensures { result ≡ judged_gates n gates.now }
{
    match gates.iter().position(|&x| gate::is_bad(gate::decode(x, n))) {
        Some(k) => Err(Refusal::BadGate(k)),
        None => Ok(()),
    }
}

// Whether a record is neither a gate nor a Hadamard.
#[tactic(auto, unfolding(crate::specs::Verdicts::is_neither))]
fn is_neither(x: u32, n: usize) -> bool
    ensures { result ≡ is_neither n x }
{
    gate::is_bad(gate::decode(x, n)) && !hadamard::is_hadamard(x, n)
}

// Test 5 of a job, in which Hadamards may stand between the gates.
pub fn judge_drawn(gates: &[u32], n: usize) -> Verdict
    ensures { result ≡ judged_drawn n gates.now }
{
    match gates.iter().position(|&x| is_neither(x, n)) {
        Some(k) => Err(Refusal::BadGate(k)),
        None => Ok(()),
    }
}
