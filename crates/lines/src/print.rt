// The lines that the programs print beside a job's text. Each gives its length, or 0 where the room is too short; then nothing is written.
ghost use Rattle.lines.specs.Lines.{refusal_text, counts_text};
ghost use Rattle.lines.specs.Lent.{Fitted};

use crate::put;

#[tactic(auto, unfolding(crate::specs::Lines::refusal_text))]
pub fn refusal(number: u32, place: usize, text: &mut [u8]) -> usize
    ensures { Fitted text.old 0 (refusal_text number place) text.new result }
{
    put::put_line(text, 0, b'x', &[number as usize, place])
}

#[tactic(auto, unfolding(crate::specs::Lines::counts_text))]
pub fn counts(cnots: usize, rotations: usize, depth: usize, text: &mut [u8]) -> usize
    ensures { Fitted text.old 0 (counts_text cnots rotations depth) text.new result }
{
    put::put_line(text, 0, b's', &[cnots, rotations, depth])
}
