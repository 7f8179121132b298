// A job laid and printed part by part, in any form: a stretch each, and the Hadamard behind it.
ghost use Rattle.std.specs.Prelude.{◌≡◌, List, ℕ, ◌++◌};
ghost use Rattle.tallies.specs.Tally.{largest};
ghost use Rattle.judging.specs.Tests.{verdict_of};
ghost use Rattle.laying.specs.Answers.{answered, phase_in};
ghost use Rattle.stretches.specs.Laid.{stretch_records};
ghost use Rattle.stretches.specs.Parts.{hadamard_at};
ghost use Rattle.console.specs.Printed.{Prints, unless};
ghost use Rattle.console.specs.Parts.{part_text, next_part, share_part};
ghost use Rattle.console.specs.Forms.{PartsFit, FittedUnless, FittedPart};

use crate::form::{Fitting, Form};
use crate::refusing;
use laying::lay;
use stretches::cut;
use tallies::tally;

// A part: how many bytes are printed, where the next one begins, and its share of the common phase.
#[derive(Clone, Copy)]
pub struct LaidPart {
    pub bytes: usize,
    pub next: usize,
    pub phase: u32,
}

// What is printed for a stretch, and its common phase.
#[derive(Clone, Copy)]
pub struct Printed {
    pub bytes: usize,
    pub phase: u32,
}

// A stretch laid, and the Hadamard behind it.
fn print_stretch<F: Form, const ROOM: usize>(
    form: F,
    n: usize,
    couplers: &[u32],
    stretch: &[u32],
    hadamard: &[u32],
    out: &mut [u8; ROOM],
) -> Printed
    requires { (gates : List ℕ) × (k : ℕ) × (hadamard.now ≡ hadamard_at n gates k) }
    ensures fitted { FittedUnless (F.line form) (verdict_of n couplers.now stretch.now largest) (stretch_records n couplers.now stretch.now ++ hadamard.now) out.old result.bytes out.new }
    ensures prints { PartsFit (F.line form) (F.text form) ROOM → Prints ROOM (unless (verdict_of n couplers.now stretch.now largest) (F.text form (stretch_records n couplers.now stretch.now ++ hadamard.now))) out.old result.bytes out.new }
    ensures phase { result.phase ≡ phase_in (answered n couplers.now stretch.now largest) }
{
    let mut laid = [0u32; tally::LARGEST];
    match lay::lay(n, couplers, stretch, &mut laid) {
        Ok(counts) => {
            let phase = counts.phase;
            let at = form.put(&mut *out, 0, &laid[..counts.records]);
            let bytes = form.put(out, at, hadamard);
            Printed { bytes, phase }
        }
        Err(refusal) => Printed {
            bytes: refusing::print_refusal(Err(refusal), out),
            phase: 0,
        },
    }
}

// Prints the part of the stretch that begins at `from`, the whole of it where there is room for each part; nothing above the number of gates.
pub fn print_part<F: Form, const ROOM: usize>(
    form: F,
    n: usize,
    couplers: &[u32],
    gates: &[u32],
    from: usize,
    out: &mut [u8; ROOM],
) -> LaidPart
    ensures fitted { FittedPart (F.line form) n couplers.now gates.now from out.old result.bytes out.new }
    ensures prints { PartsFit (F.line form) (F.text form) ROOM → Prints ROOM (part_text (F.text form) n couplers.now gates.now from) out.old result.bytes out.new }
    ensures next { result.next ≡ next_part n gates.now from }
    ensures share { result.phase ≡ share_part n couplers.now gates.now from }
{
    if gates.len() < from {
        return LaidPart {
            bytes: 0,
            next: from,
            phase: 0,
        };
    }
    let stretch = cut::stretch_at(n, gates, from);
    let hadamard = cut::hadamard_at(n, gates, from);
    let printed = print_stretch(form, n, couplers, stretch, hadamard, out);
    LaidPart {
        bytes: printed.bytes,
        next: from + stretch.len() + 1,
        phase: printed.phase,
    }
}

// The same in a form whose memory has the room.
pub fn print_whole_part<F: Fitting<ROOM>, const ROOM: usize>(
    form: F,
    n: usize,
    couplers: &[u32],
    gates: &[u32],
    from: usize,
    out: &mut [u8; ROOM],
) -> LaidPart
    ensures prints { Prints ROOM (part_text (F.text form) n couplers.now gates.now from) out.old result.bytes out.new }
    ensures next { result.next ≡ next_part n gates.now from }
    ensures share { result.phase ≡ share_part n couplers.now gates.now from }
{
    print_part(form, n, couplers, gates, from, out)
}

// A form whose parts an entry point of its own prints.
pub trait Parts<const ROOM: usize>: Fitting<ROOM> {
    fn lay_part(
        self,
        n: usize,
        couplers: &[u32],
        gates: &[u32],
        from: usize,
        out: &mut [u8; ROOM],
    ) -> LaidPart
        ensures prints { Prints ROOM (part_text (Self.text self) n couplers.now gates.now from) out.old result.bytes out.new }
        ensures next { result.next ≡ next_part n gates.now from }
        ensures share { result.phase ≡ share_part n couplers.now gates.now from };
}
