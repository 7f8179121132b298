// Runs of lines of one sort, couplers or gates: counted in a first pass, their records filled in in a second.
ghost use Rattle.std.specs.Prelude.{◌≡◌, ◌≤◌, length, drop};
ghost use Rattle.reading.specs.Parsing.{run_of};
ghost use Rattle.lines.specs.Lent.{onto};

use crate::line;
use crate::sort::Sort;

#[derive(Clone, Copy)]
pub(crate) struct LineCount {
    pub count: usize,
    pub next: usize,
}

// How many lines of the sort follow each other, and the place behind them.
pub(crate) fn count(text: &[u8], from: usize, sort: Sort) -> LineCount
    ensures { (result.count ≡ length (run_of sort (drop from text.now)).records) × (drop result.next text.now ≡ (run_of sort (drop from text.now)).left) }
{
    let mut n: usize = 0;
    let mut at = from;
    while let Some(p) = line::one(text, at, sort) {
        n += 1;
        at = p.next;
    }
    LineCount { count: n, next: at }
}

// Writes the records of those lines to the front of `out`.
pub(crate) fn fill(text: &[u8], from: usize, sort: Sort, out: &mut [u32])
    requires { length (run_of sort (drop from text.now)).records ≤ length out.old }
    ensures { out.new ≡ onto (run_of sort (drop from text.now)).records out.old }
{
    let mut n: usize = 0;
    let mut at = from;
    while let Some(p) = line::one(text, at, sort) {
        out[n] = p.value;
        n += 1;
        at = p.next;
    }
}
