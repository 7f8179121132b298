// Lines as they are written from a pattern, in which each `#` stands for the next number.
ghost use Rattle.std.specs.Prelude.{◌≡◌, length, slice_index};
ghost use Rattle.lines.specs.Pattern.{filled_byte, uses, filled};
ghost use Rattle.lines.specs.Lent.{Fitted};
ghost use Rattle.lines.specs.Page.{HasRoom, Puts};
ghost use Rattle.lines.specs.Room.{room_after};

use crate::page::Page;
use crate::room;

// A number that is wanting is 0.
fn number_at(numbers: &[usize], k: usize) -> usize
    ensures { result ≡ slice_index numbers.now k }
{
    numbers.get(k).copied().unwrap_or(0)
}

// How many numbers a byte of a pattern uses up.
#[tactic(auto, using(std::proofs::lemmas::Bool::Decides::nat_tests))]
fn used_by(x: u8) -> usize
    ensures { result ≡ uses x }
{
    if x == b'#' { 1 } else { 0 }
}

#[tactic(auto, using(std::proofs::lemmas::Bool::Decides::nat_tests))]
fn put_filled_byte(page: &mut Page<'_>, x: u8, v: usize)
    requires { HasRoom page.old (filled_byte x v) }
    ensures { Puts page.old (filled_byte x v) page.new }
{
    match x {
        b'#' => page.put_number(v),
        _ => page.put(x),
    }
}

#[tactic(auto, using(std::proofs::lemmas::Bool::Decides::nat_tests))]
fn after_filled_byte(left: Option<usize>, x: u8, v: usize) -> Option<usize>
    ensures { result ≡ room_after left (length (filled_byte x v)) }
{
    match x {
        b'#' => room::after(left, room::width(v)),
        _ => room::after(left, 1),
    }
}

fn put_filled(page: &mut Page<'_>, pattern: &[u8], numbers: &[usize])
    requires { HasRoom page.old (filled pattern.now numbers.now) }
    ensures { Puts page.old (filled pattern.now numbers.now) page.new }
{
    let mut k = 0;
    for &x in pattern {
        put_filled_byte(page, x, number_at(numbers, k));
        k += used_by(x);
    }
}

// It walks the pattern as `put_filled` does: what they share is this loop, and a room and a page ask for different things.
pub fn after_pattern(room: Option<usize>, pattern: &[u8], numbers: &[usize]) -> Option<usize>
    ensures { result ≡ room_after room (length (filled pattern.now numbers.now)) }
{
    let mut left = room;
    let mut k = 0;
    for &x in pattern {
        left = after_filled_byte(left, x, number_at(numbers, k));
        k += used_by(x);
    }
    left
}

// The place behind the line, or `at` where the line does not fit; then nothing is written.
pub fn put_pattern(text: &mut [u8], at: usize, pattern: &[u8], numbers: &[usize]) -> usize
    ensures { Fitted text.old at (filled pattern.now numbers.now) text.new result }
{
    let behind = text.len().checked_sub(at);
    if after_pattern(behind, pattern, numbers).is_none() {
        return at;
    }
    let mut page = Page { text, at };
    put_filled(&mut page, pattern, numbers);
    page.at
}
