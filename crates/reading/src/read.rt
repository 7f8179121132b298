// The reader of a job's text. It judges form only, and writes nothing before the whole text is judged.
ghost use Rattle.std.specs.Prelude.{◌≡◌, length};
ghost use Rattle.reading.specs.Parsing.{parsed};
ghost use Rattle.reading.specs.Readings.{reading_of, couplers_in, gates_in, lent_after};

use crate::sort::Sort;
use crate::{line, run};
use gates::job::Job;
use verdicts::verdict::Refusal;

pub const MOST_BYTES: usize = 65536;

pub fn read(text: &[u8], couplers: &mut [u32], gates: &mut [u32]) -> Result<Job, Refusal>
    ensures { (result ≡ reading_of text.now (length couplers.old) (length gates.old)) × (couplers.new ≡ lent_after result (couplers_in (parsed text.now)) couplers.old) × (gates.new ≡ lent_after result (gates_in (parsed text.now)) gates.old) }
{
    if MOST_BYTES < text.len() {
        return Err(Refusal::LongText);
    }
    let Some(h) = line::head(text) else {
        return Err(Refusal::Line(1));
    };
    let e = run::count(text, h.next, Sort::Couplers);
    let g = run::count(text, e.next, Sort::Gates);
    if g.next < text.len() {
        return Err(Refusal::Line(2 + e.count + g.count));
    }
    if couplers.len() < e.count || gates.len() < g.count {
        return Err(Refusal::Room);
    }
    run::fill(text, h.next, Sort::Couplers, &mut *couplers);
    run::fill(text, e.next, Sort::Gates, &mut *gates);
    Ok(Job {
        qubits: h.value as usize,
        couplers: e.count,
        gates: g.count,
    })
}
