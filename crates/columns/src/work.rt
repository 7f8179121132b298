// What a way works on.
ghost use Rattle.std.specs.Prelude.{◌≡◌};
ghost use Rattle.columns.specs.Turning.{lay_cnot};
ghost use Rattle.columns.specs.Worked.{Worked};

use crate::turning;
use emitting::emit;

// Columns with their angles, the records laid, and the next place.
#[derive(Drop)]
pub struct Work<'a> {
    pub cols: &'a mut [u32],
    pub angles: &'a [u32],
    pub out: &'a mut [u32],
    pub at: usize,
}

impl<'a> Work<'a> {
    // The columns, to be read.
    pub fn columns(&self) -> &[u32]
        ensures { result.now ≡ self.now.cols.now }
    {
        self.cols
    }

    // A CNOT is laid: one record more, and every column turned.
    pub fn lay_cnot(&mut self, control: usize, target: usize)
        ensures { Worked self.old self.new (lay_cnot control target self.old.cols.now) }
    {
        turning::turn_all(self.cols, control, target);
        self.at = emit::put_cnot(self.out, self.at, control, target);
    }
}
