// The laying program: a front, then a part for each stretch, each printed into the same memory. The whole text is never held.
ghost use Rattle.std.specs.Prelude.{◌≡◌, [], ◌+◌, ◌≤◌, length, take};
ghost use Rattle.verdicts.specs.Verdicts.{number_of};
ghost use Rattle.chip.specs.Couplers.{near_of};
ghost use Rattle.chip.specs.Ordered.{ordered_list};
ghost use Rattle.lines.specs.Lines.{records_text, text_of};
ghost use Rattle.reading.specs.Limits.{most_bytes};
ghost use Rattle.text.specs.Writings.{judged_text};
ghost use Rattle.console.specs.Printed.{most_gate_lines, most_printed, Prints};
ghost use Rattle.console.specs.Parts.{front_job, first_part, Begins, part_text, next_part, share_part};

use crate::form::Lines;
use crate::parts::Parts;
pub use crate::parts::{LaidPart, Printed};
use crate::{COUPLER_LINES, GATE_LINES, INPUT, OUTPUT, front, parts, refusing};
use chip::couplers;
use gates::job::Job;
use reading::read;
use stretches::judge;
use text::write;

// What was read, what is printed first, and where the first part begins, which is above the number of gates where the text or the job is refused.
#[derive(Clone, Copy)]
pub struct Begun {
    pub job: Job,
    pub bytes: usize,
    pub from: usize,
}

// The front of a job, and where its first part begins.
#[derive(Clone, Copy)]
struct Front {
    bytes: usize,
    from: usize,
}

// The `q` line and the couplers in order. It asks that the writer accepts them, as it does those of every job that passes its tests.
#[tactic(auto, using(crate::proofs::Writing::order_fits))]
fn print_head(n: usize, couplers: &[u32], out: &mut [u8; OUTPUT]) -> usize
    requires { number_of (judged_text n (ordered_list (near_of n couplers.now)) [] most_printed) ≡ 0 }
    ensures { Prints most_printed (text_of n (ordered_list (near_of n couplers.now)) []) out.old result out.new }
{
    let ordered = couplers::in_order(couplers::near(couplers, n));
    match write::write(n, &ordered.records[..ordered.len], &[], out) {
        Ok(bytes) => bytes,
        Err(refusal) => refusing::print_refusal(Err(refusal), out),
    }
}

fn begin_job(n: usize, couplers: &[u32], gates: &[u32], out: &mut [u8; OUTPUT]) -> Front
    requires { length gates.now ≤ most_gate_lines }
    ensures { Prints most_printed (front_job n couplers.now gates.now) out.old result.bytes out.new × (result.from ≡ first_part n couplers.now gates.now) }
{
    match judge::judge(n, couplers, gates) {
        Ok(()) => Front {
            bytes: print_head(n, couplers, out),
            from: 0,
        },
        Err(refusal) => Front {
            bytes: refusing::print_refusal(Err(refusal), out),
            from: gates.len() + 1,
        },
    }
}

// Reads a text, judges the whole job and prints its front. No refusal comes behind it.
pub fn begin_text(
    text: &[u8],
    couplers: &mut [u32; COUPLER_LINES],
    gates: &mut [u32; GATE_LINES],
    out: &mut [u8; OUTPUT],
) -> Begun
    ensures { Begins text.now couplers.old gates.old out.old result couplers.new gates.new out.new }
{
    match read::read(text, &mut *couplers, &mut *gates) {
        Ok(job) => {
            let front = begin_job(
                job.qubits,
                front::first(couplers, job.couplers),
                front::first(gates, job.gates),
                out,
            );
            Begun {
                job,
                bytes: front.bytes,
                from: front.from,
            }
        }
        Err(refusal) => Begun {
            job: Job {
                qubits: 0,
                couplers: 0,
                gates: 0,
            },
            bytes: refusing::print_refusal(Err(refusal), out),
            from: 1,
        },
    }
}

// The same of `len` bytes of `input`.
pub fn begin(
    input: &[u8; INPUT],
    len: usize,
    couplers: &mut [u32; COUPLER_LINES],
    gates: &mut [u32; GATE_LINES],
    out: &mut [u8; OUTPUT],
) -> Begun
    ensures input_len { length input.now ≡ most_bytes + 1 }
    ensures begins { Begins (take len input.now) couplers.old gates.old out.old result couplers.new gates.new out.new }
{
    begin_text(front::first(input, len), couplers, gates, out)
}

// Prints the part of the stretch that begins at `from`; nothing above the number of gates.
pub fn lay_part(
    n: usize,
    couplers: &[u32],
    gates: &[u32],
    from: usize,
    out: &mut [u8; OUTPUT],
) -> LaidPart
    ensures { Prints most_printed (part_text records_text n couplers.now gates.now from) out.old result.bytes out.new × (result.next ≡ next_part n gates.now from) × (result.phase ≡ share_part n couplers.now gates.now from) }
{
    parts::print_whole_part(Lines, n, couplers, gates, from, out)
}

impl Parts<{ OUTPUT }> for Lines {
    fn lay_part(
        self,
        n: usize,
        couplers: &[u32],
        gates: &[u32],
        from: usize,
        out: &mut [u8; OUTPUT],
    ) -> LaidPart {
        lay_part(n, couplers, gates, from, out)
    }
}
