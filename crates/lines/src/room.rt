// Whether a text fits a room. Each line is taken off the room, since a sum of lengths need not be a number that the machine holds.
// What is left is `None` where the room is too short.
ghost use Rattle.std.specs.Prelude.{◌≡◌, ◌∷◌, ◌+◌, length};
ghost use Rattle.lines.specs.Lines.{digits, fields_text, records_text};
ghost use Rattle.lines.specs.Room.{room_after};

use crate::records;
use crate::records::JobLines;

pub(crate) fn after(room: Option<usize>, need: usize) -> Option<usize>
    ensures { result ≡ room_after room need }
{
    room?.checked_sub(need)
}

// How many digits a number has.
#[tactic(auto, using(crate::proofs::Digits::digit_steps))]
pub(crate) fn width(v: usize) -> usize
    ensures { result ≡ length (digits v) }
{
    if v < 10 {
        return 1;
    }
    width(v / 10) + 1
}

// A tab, then the number.
fn after_field(room: Option<usize>, v: usize) -> Option<usize>
    ensures { result ≡ room_after room (length (9 ∷ digits v)) }
{
    after(after(room, 1), width(v))
}

// A letter, numbers behind tabs, LF.
#[tactic(auto, using(crate::proofs::Rooms::room_none, crate::proofs::Rooms::room_then, crate::proofs::Rooms::room_fields), unfolding(crate::specs::Lines::fields_text))]
pub fn after_line(room: Option<usize>, numbers: &[usize]) -> Option<usize>
    ensures { result ≡ room_after room (2 + length (fields_text numbers.now)) }
{
    let mut left = after(room, 2);
    for &v in numbers {
        left = after_field(left, v);
    }
    left
}

#[tactic(auto, using(crate::proofs::Recorded::records_joined))]
pub fn after_records(room: Option<usize>, records: &[u32]) -> Option<usize>
    ensures { result ≡ room_after room (length (records_text records.now)) }
{
    records::after_lines(&JobLines, room, records)
}
