// Lines as they are read: the first one, a coupler's, a gate's.
ghost use Rattle.std.specs.Prelude.{◌≡◌, drop};
ghost use Rattle.reading.specs.Parsing.{read_line, read_short, read_other, read_one, read_head};
ghost use Rattle.lines.specs.Kinds.{number_of};
ghost use Rattle.spots.specs.Places.{got_of};

use crate::sort::Sort;
use lines::kind::Kind;
use spots::spot;
use spots::spot::Fetched;

pub(crate) const MOST_FIRST: u32 = 255;

pub(crate) const MOST_SECOND: u32 = 65535;

// The line of a record of a kind whose line has two numbers.
#[tactic(auto, unfolding(crate::specs::Parsing::read_line, gates::specs::Layout::packed))]
fn line(text: &[u8], at: usize, kind: Kind) -> Option<Fetched>
    ensures { got_of text.now result ≡ read_line (number_of kind) (drop at text.now) }
{
    let p0 = spot::skip(text, Some(at), kind.letter());
    let p1 = spot::skip(text, p0, b'\t');
    let a = spot::number(text, p1, MOST_FIRST)?;
    let p2 = spot::skip(text, Some(a.next), b'\t');
    let b = spot::number(text, p2, MOST_SECOND)?;
    let next = spot::skip(text, Some(b.next), b'\n')?;
    Some(Fetched {
        value: kind as u32 * 16777216 + a.value * 65536 + b.value,
        next,
    })
}

// The line of a record of a kind whose line has one number.
#[tactic(auto, unfolding(crate::specs::Parsing::read_short, gates::specs::Layout::packed))]
fn short(text: &[u8], at: usize, kind: Kind) -> Option<Fetched>
    ensures { got_of text.now result ≡ read_short (number_of kind) (drop at text.now) }
{
    let p0 = spot::skip(text, Some(at), kind.letter());
    let p1 = spot::skip(text, p0, b'\t');
    let a = spot::number(text, p1, MOST_FIRST)?;
    let next = spot::skip(text, Some(a.next), b'\n')?;
    Some(Fetched {
        value: kind as u32 * 16777216 + a.value * 65536,
        next,
    })
}

// The line of a rotation, of an X, or of a Hadamard.
#[tactic(auto, unfolding(crate::specs::Parsing::read_other))]
fn other(text: &[u8], at: usize) -> Option<Fetched>
    ensures { got_of text.now result ≡ read_other (drop at text.now) }
{
    line(text, at, Kind::Rotation)
        .or_else(|| short(text, at, Kind::X))
        .or_else(|| short(text, at, Kind::Hadamard))
}

// A coupler's line, or a gate's.
#[tactic(auto, unfolding(crate::specs::Parsing::read_one))]
pub(crate) fn one(text: &[u8], at: usize, sort: Sort) -> Option<Fetched>
    ensures { got_of text.now result ≡ read_one sort (drop at text.now) }
{
    match sort {
        Sort::Couplers => line(text, at, Kind::Coupler),
        Sort::Gates => line(text, at, Kind::Cnot).or_else(|| other(text, at)),
    }
}

// The `q` line.
#[tactic(auto, unfolding(crate::specs::Parsing::read_head))]
pub(crate) fn head(text: &[u8]) -> Option<Fetched>
    ensures { got_of text.now result ≡ read_head text.now }
{
    let p0 = spot::skip(text, Some(0), b'q');
    let p1 = spot::skip(text, p0, b'\t');
    let n = spot::number(text, p1, MOST_FIRST)?;
    let next = spot::skip(text, Some(n.next), b'\n')?;
    Some(Fetched {
        value: n.value,
        next,
    })
}
