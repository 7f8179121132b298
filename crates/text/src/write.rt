// The writer of a job's text. It judges the lists and the room before it writes a byte.
ghost use Rattle.std.specs.Prelude.{◌≡◌, ◌≤◌, leb, length};
ghost use Rattle.std.proofs.lemmas.List.Edits.{sets};
ghost use Rattle.lines.specs.Lines.{text_of};
ghost use Rattle.reading.specs.Readings.{lent_after};
ghost use Rattle.text.specs.Writings.{writing_of};

use lines::{put, records, room};
use verdicts::verdict;
use verdicts::verdict::Refusal;

fn put_text(n: usize, couplers: &[u32], gates: &[u32], text: &mut [u8]) -> usize
    requires { length (text_of n couplers.now gates.now) ≤ length text.old }
    ensures bytes { result ≡ length (text_of n couplers.now gates.now) }
    ensures written { text.new ≡ sets text.old 0 (text_of n couplers.now gates.now) }
{
    let numbers = [n];
    let p0 = put::put_line(&mut *text, 0, b'q', &numbers);
    let p1 = records::put_records(&mut *text, p0, couplers);
    records::put_records(text, p1, gates)
}

#[tactic(auto, unfolding(lines::specs::Lines::text_of, lines::specs::Lines::line_text))]
fn fits(n: usize, couplers: &[u32], gates: &[u32], room: usize) -> bool
    ensures { result ≡ leb (length (text_of n couplers.now gates.now)) room }
{
    let numbers = [n];
    let behind_first = room::after_line(Some(room), &numbers);
    let behind_couplers = room::after_records(behind_first, couplers);
    room::after_records(behind_couplers, gates).is_some()
}

// Tests 1, 2, 3, 5 and 8; 5 is that of a job.
pub fn write(n: usize, couplers: &[u32], gates: &[u32], text: &mut [u8]) -> Result<usize, Refusal>
    ensures { (result ≡ writing_of n couplers.now gates.now (length text.old)) × (text.new ≡ lent_after result (text_of n couplers.now gates.now) text.old) }
{
    verdict::judge_qubits(n)?;
    verdict::judge_couplers(couplers, n)?;
    verdict::judge_drawn(gates, n)?;
    if !fits(n, couplers, gates, text.len()) {
        return Err(Refusal::Room);
    }
    Ok(put_text(n, couplers, gates, text))
}
