// What every program prints for a refusal.
ghost use Rattle.std.specs.Prelude.{◌≤◌};
ghost use Rattle.lines.specs.Lent.{Fitted};
ghost use Rattle.console.specs.Printed.{most_refused, Prints, refusal_of};

use lines::print;
use verdicts::verdict;
use verdicts::verdict::Verdict;

// The number of bytes printed; what lies behind them in the lent memory stays. 0 where the room is too short; then nothing is written.
pub fn print_refusal<const ROOM: usize>(v: Verdict, out: &mut [u8; ROOM]) -> usize
    ensures fitted { Fitted out.old 0 (refusal_of v) out.new result }
    ensures prints { most_refused ≤ ROOM → Prints ROOM (refusal_of v) out.old result out.new }
{
    print::refusal(verdict::number(v), verdict::place(v), out)
}
