// Records as they are written: one line behind another, each where it fits.
ghost use Rattle.std.specs.Prelude.{◌≡◌, ℕ, List, [], ◌∷◌, length};
ghost use Rattle.std.specs.List.{flat_map};
ghost use Rattle.gates.specs.Layout.{a_in, b_in};
ghost use Rattle.lines.specs.Lines.{record_text};
ghost use Rattle.lines.specs.Lent.{Fitted, FittedLines};
ghost use Rattle.lines.specs.Room.{room_after};

use crate::kind::Kind;
use crate::{put, room};

// A way to write records: each has its line.
pub trait RecordLines {
    ghost line: { Self → ℕ → List ℕ };

    // What a room has left behind the line.
    fn after_record(&self, room: Option<usize>, x: u32) -> Option<usize>
        ensures { result ≡ room_after room (length (line self.now x)) };

    // The place behind the line, or `at` where the line does not fit; then nothing is written.
    fn put_record(&self, text: &mut [u8], at: usize, x: u32) -> usize
        ensures { Fitted text.old at (line self.now x) text.new result };
}

pub fn after_lines<L: RecordLines>(lines: &L, room: Option<usize>, records: &[u32]) -> Option<usize>
    ensures { result ≡ room_after room (length (flat_map (L.line lines.now) records.now)) }
{
    let mut left = room;
    for &x in records {
        left = lines.after_record(left, x);
    }
    left
}

// The place behind the last line that fits. A line that does not fit is left out, and the next one is tried where it would have stood.
pub fn put_lines<L: RecordLines>(lines: &L, text: &mut [u8], from: usize, records: &[u32]) -> usize
    ensures { FittedLines (L.line lines.now) text.old from records.now text.new result }
{
    let mut at = from;
    for &x in records {
        at = lines.put_record(&mut *text, at, x);
    }
    at
}

// The lines of a job's text.
pub(crate) struct JobLines;

impl RecordLines for JobLines {
    ghost line = { λ _. record_text };

    #[tactic(auto, using(crate::proofs::Writes::record_fields, crate::proofs::Shown::shown), unfolding(crate::specs::Lines::record_text))]
    fn after_record(&self, room: Option<usize>, x: u32) -> Option<usize> {
        let count = Kind::of(x).fields();
        room::after_line(room, &numbers_of(x)[..count])
    }

    #[tactic(auto, using(crate::proofs::Writes::record_fields, crate::proofs::Shown::shown), unfolding(crate::specs::Lines::record_text))]
    fn put_record(&self, text: &mut [u8], at: usize, x: u32) -> usize {
        let kind = Kind::of(x);
        let count = kind.fields();
        put::put_line(text, at, kind.letter(), &numbers_of(x)[..count])
    }
}

#[tactic(auto, unfolding(gates::specs::Layout::a_in, gates::specs::Layout::b_in))]
fn numbers_of(x: u32) -> [usize; 2]
    ensures { result ≡ a_in x ∷ b_in x ∷ [] }
{
    [(x / 65536 % 256) as usize, (x % 65536) as usize]
}

// The place behind the last line that fits, as `put_lines` has it.
pub fn put_records(text: &mut [u8], from: usize, records: &[u32]) -> usize
    ensures { FittedLines record_text text.old from records.now text.new result }
{
    put_lines(&JobLines, text, from, records)
}
