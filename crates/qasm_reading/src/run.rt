// The statements behind the register, one behind the other: their gates are counted in a first pass, the records filled in in a second.
ghost use Rattle.std.specs.Prelude.{◌≡◌, ◌≤◌, length, drop};
ghost use Rattle.lines.specs.Lent.{onto};
ghost use Rattle.words.specs.Words.{words};
ghost use Rattle.qasm_reading.specs.Parsing.{statement_run};

use circuit::wires;
use statements::gate;
use versions::Version;

// How many gates there are, what all statements add to the common phase, and the place behind them.
#[derive(Clone, Copy)]
pub(crate) struct GateCount {
    pub count: usize,
    pub phase: u32,
    pub next: usize,
}

pub(crate) fn count(text: &[u8], version: Version, name: &[u8], from: usize) -> GateCount
    ensures { (result.count ≡ length (statement_run version name.now (words (drop from text.now))).records) × (result.phase ≡ (statement_run version name.now (words (drop from text.now))).phase) × (words (drop result.next text.now) ≡ (statement_run version name.now (words (drop from text.now))).left) }
{
    let mut n: usize = 0;
    let mut phase: u32 = 0;
    let mut at = from;
    while let Some(p) = gate::gate(text, version, name, at) {
        at = p.next;
        phase = wires::together(phase, p.phase);
        let is_gate = p.record.is_some();
        if is_gate {
            n += 1;
        }
    }
    GateCount {
        count: n,
        phase,
        next: at,
    }
}

pub(crate) fn fill(text: &[u8], version: Version, name: &[u8], from: usize, out: &mut [u32])
    requires { length (statement_run version name.now (words (drop from text.now))).records ≤ length out.old }
    ensures { out.new ≡ onto (statement_run version name.now (words (drop from text.now))).records out.old }
{
    let mut n: usize = 0;
    let mut at = from;
    while let Some(p) = gate::gate(text, version, name, at) {
        at = p.next;
        if let Some(x) = p.record {
            out[n] = x;
            n += 1;
        }
    }
}
