// The writer of a circuit's text. It judges the gates and the room before it writes a byte.
ghost use Rattle.std.specs.Prelude.{◌≡◌, ◌≤◌, leb, length};
ghost use Rattle.std.proofs.lemmas.List.Edits.{sets};
ghost use Rattle.reading.specs.Readings.{lent_after};
ghost use Rattle.qasm_lines.specs.Spelling.{circuit_text};
ghost use Rattle.qasm_text.specs.Writings.{circuit_writing};

use qasm_lines::{put, room};
use verdicts::verdict;
use verdicts::verdict::Refusal;
use versions::Version;

fn put_circuit(version: Version, n: usize, gates: &[u32], phase: u32, text: &mut [u8]) -> usize
    requires { length (circuit_text version n gates.now phase) ≤ length text.old }
    ensures bytes { result ≡ length (circuit_text version n gates.now phase) }
    ensures written { text.new ≡ sets text.old 0 (circuit_text version n gates.now phase) }
{
    let p = put::put_head(&mut *text, version, n);
    let q = put::put_gates(&mut *text, p, version, gates);
    put::put_phase(text, q, version, phase)
}

#[tactic(auto, unfolding(qasm_lines::specs::Spelling::circuit_text))]
fn fits(version: Version, n: usize, gates: &[u32], phase: u32, room: usize) -> bool
    ensures { result ≡ leb (length (circuit_text version n gates.now phase)) room }
{
    let behind_head = room::after_head(Some(room), version, n);
    let behind_gates = room::after_gates(behind_head, version, gates);
    room::after_phase(behind_gates, version, phase).is_some()
}

// Tests 1, 5 and 8; 5 is that of a job. The common phase is in half units, modulo 131,072.
pub fn write(
    version: Version,
    n: usize,
    gates: &[u32],
    phase: u32,
    text: &mut [u8],
) -> Result<usize, Refusal>
    ensures { (result ≡ circuit_writing version n gates.now phase (length text.old)) × (text.new ≡ lent_after result (circuit_text version n gates.now phase) text.old) }
{
    verdict::judge_qubits(n)?;
    verdict::judge_drawn(gates, n)?;
    if !fits(version, n, gates, phase, text.len()) {
        return Err(Refusal::Room);
    }
    Ok(put_circuit(version, n, gates, phase, text))
}
