// The reader of a couplers' text: lines of couplers and nothing else. It judges form only, and writes nothing before the whole text is judged.
ghost use Rattle.std.specs.Prelude.{◌≡◌, length};
ghost use Rattle.reading.specs.Readings.{couplers_in, lent_after};
ghost use Rattle.reading.specs.Listing.{parsed_couplers, couplers_reading};

use crate::sort::Sort;
use crate::{read, run};
use gates::job::Job;
use verdicts::verdict::Refusal;

pub fn read_couplers(text: &[u8], couplers: &mut [u32]) -> Result<Job, Refusal>
    ensures { (result ≡ couplers_reading text.now (length couplers.old)) × (couplers.new ≡ lent_after result (couplers_in (parsed_couplers text.now)) couplers.old) }
{
    if read::MOST_BYTES < text.len() {
        return Err(Refusal::LongText);
    }
    let e = run::count(text, 0, Sort::Couplers);
    if e.next < text.len() {
        return Err(Refusal::Line(1 + e.count));
    }
    if couplers.len() < e.count {
        return Err(Refusal::Room);
    }
    run::fill(text, 0, Sort::Couplers, &mut *couplers);
    Ok(Job {
        qubits: 0,
        couplers: e.count,
        gates: 0,
    })
}
