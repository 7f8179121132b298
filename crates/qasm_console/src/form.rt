// How gates are printed: as the statements of a circuit, in its version of OpenQASM.
ghost use Rattle.std.specs.Prelude.{◌≡◌};
ghost use Rattle.qasm_lines.specs.Spelling.{gate_text, gates_text};
ghost use Rattle.qasm_console.specs.Fitting.{statements-form};

use crate::OUTPUT;
use console::form::{Fitting, Form};
use qasm_lines::put;
use versions::Version;

#[derive(Clone, Copy)]
pub struct Statements {
    pub version: Version,
}

impl Form for Statements {
    ghost line = { λ s. gate_text s.version };

    ghost text = { λ s. gates_text s.version };

    fn put(self, out: &mut [u8], from: usize, gates: &[u32]) -> usize {
        put::put_gates(out, from, self.version, gates)
    }
}

impl Fitting<{ OUTPUT }> for Statements {
    ghost fits = { λ s. statements-form s.version };
}
