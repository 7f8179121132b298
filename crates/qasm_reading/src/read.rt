// The reader of a circuit's text. It judges form only, and writes nothing before the whole text is judged.
ghost use Rattle.std.specs.Prelude.{◌≡◌, length, drop, Some};
ghost use Rattle.reading.specs.Readings.{lent_after};
ghost use Rattle.words.specs.Words.{words};
ghost use Rattle.statements.specs.Statements.{read_include};
ghost use Rattle.qasm_reading.specs.Parsing.{head_fault, behind_register, included, parsed_circuit};
ghost use Rattle.qasm_reading.specs.Readings.{circuit_reading, circuit_gates, judged_statements, line_of, FoundRead};

use crate::run;
use reading::read::MOST_BYTES;
use statements::{gate, head};
use verdicts::verdict::Refusal;
use versions::Version;
use words::{byte, word};

// What a circuit's text holds beside the records of its gates: how many they are, and the common phase in half units.
#[derive(Clone, Copy)]
pub struct Circuit {
    pub version: Version,
    pub qubits: usize,
    pub gates: usize,
    pub phase: u32,
}

// The line on which the first word at `at` or behind starts.
fn line_of(text: &[u8], at: usize) -> Option<usize>
    ensures { result ≡ line_of text.now (words (drop at text.now)) }
{
    let first = word::next(text, at)?;
    Some(byte::line_behind(&text[..first.from]))
}

// What is refused where the include line or the register does not stand at `at`.
fn head_fault(text: &[u8], at: usize) -> Refusal
    ensures { Err result ≡ judged_statements text.now (head_fault (words (drop at text.now))) }
{
    if head::has_end(text, at) {
        return Refusal::Statement(line_of(text, at).unwrap_or(0));
    }
    Refusal::Statement(0)
}

// The gates, behind the register.
fn body(
    text: &[u8],
    version: Version,
    name: &[u8],
    n: u32,
    at: usize,
    gates: &mut [u32],
) -> Result<Circuit, Refusal>
    ensures { FoundRead text.now (behind_register version name.now n (words (drop at text.now))) gates.old result gates.new }
{
    let g = run::count(text, version, name, at);
    if let Some(place) = line_of(text, g.next) {
        if gate::bad_angle(text, version, name, g.next) {
            return Err(Refusal::Angle(place));
        }
        return Err(Refusal::Statement(place));
    }
    if gates.len() < g.count {
        return Err(Refusal::Room);
    }
    run::fill(text, version, name, at, &mut *gates);
    Ok(Circuit {
        version,
        qubits: n as usize,
        gates: g.count,
        phase: g.phase,
    })
}

// Behind the version, which ends at `at`.
fn behind_version(
    text: &[u8],
    version: Version,
    at: usize,
    gates: &mut [u32],
) -> Result<Circuit, Refusal>
    ensures { FoundRead text.now (included version (read_include version (Some (words (drop at text.now)))) (words (drop at text.now))) gates.old result gates.new }
{
    let Some(p) = head::include(text, Some(at), version) else {
        return Err(head_fault(text, at));
    };
    let Some(r) = head::register(text, Some(p), version) else {
        return Err(head_fault(text, p));
    };
    let name = &text[r.name.from..r.name.to];
    body(text, version, name, r.size, r.next, &mut *gates)
}

pub fn read(text: &[u8], gates: &mut [u32]) -> Result<Circuit, Refusal>
    ensures { (result ≡ circuit_reading text.now (length gates.old)) × (gates.new ≡ lent_after result (circuit_gates (parsed_circuit text.now)) gates.old) }
{
    if MOST_BYTES < text.len() {
        return Err(Refusal::LongText);
    }
    if let Some(p) = head::version(text, Some(0), Version::Two) {
        return behind_version(text, Version::Two, p, &mut *gates);
    }
    if let Some(p) = head::version(text, Some(0), Version::Three) {
        return behind_version(text, Version::Three, p, &mut *gates);
    }
    Err(Refusal::Unversioned)
}
