// Lines as they are written: a letter, numbers behind tabs, LF.
ghost use Rattle.lines.specs.Lines.{line_text};
ghost use Rattle.lines.specs.Lent.{Fitted};
ghost use Rattle.lines.specs.Page.{HasRoom, Puts};

use crate::page::Page;
use crate::room;

fn put_fitting(page: &mut Page<'_>, letter: u8, numbers: &[usize])
    requires { HasRoom page.old (line_text letter numbers.now) }
    ensures { Puts page.old (line_text letter numbers.now) page.new }
{
    page.put(letter);
    for &v in numbers {
        page.put_field(v);
    }
    page.put(b'\n');
}

// The place behind the line, or `at` where the line does not fit; then nothing is written.
#[tactic(auto, unfolding(crate::specs::Lines::line_text))]
pub fn put_line(text: &mut [u8], at: usize, letter: u8, numbers: &[usize]) -> usize
    ensures { Fitted text.old at (line_text letter numbers.now) text.new result }
{
    let behind = text.len().checked_sub(at);
    if room::after_line(behind, numbers).is_none() {
        return at;
    }
    let mut page = Page { text, at };
    put_fitting(&mut page, letter, numbers);
    page.at
}
