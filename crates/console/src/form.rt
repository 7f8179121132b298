// How gates are printed. The lines of a job are one form of it; `qasm_console` has another, the statements of a circuit.
ghost use Rattle.std.specs.Prelude.{ℕ, List};
ghost use Rattle.lines.specs.Lines.{record_text, records_text};
ghost use Rattle.lines.specs.Lent.{FittedLines};
ghost use Rattle.console.specs.Forms.{PartsFit};
ghost use Rattle.console.specs.Fitting.{lines-form};

use crate::OUTPUT;
use lines::records;

pub trait Form: Copy {
    // What is printed for a gate.
    ghost line: { Self → ℕ → List ℕ };

    // What is printed for a list of gates.
    ghost text: { Self → List ℕ → List ℕ };

    // The place behind the last gate that fits.
    fn put(self, out: &mut [u8], from: usize, gates: &[u32]) -> usize
        ensures { FittedLines (line self) out.old from gates.now out.new result };
}

// A form for which so many bytes of memory are enough.
pub trait Fitting<const ROOM: usize>: Form {
    // There is room for each part.
    ghost fits: { (form : Self) → PartsFit (Self.line form) (Self.text form) ROOM };
}

#[derive(Clone, Copy)]
pub struct Lines;

impl Form for Lines {
    ghost line = { λ _. record_text };

    ghost text = { λ _. records_text };

    fn put(self, out: &mut [u8], from: usize, gates: &[u32]) -> usize {
        records::put_records(out, from, gates)
    }
}

impl Fitting<{ OUTPUT }> for Lines {
    ghost fits = { λ _. lines-form };
}
