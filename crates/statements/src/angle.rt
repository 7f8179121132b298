// Angles as they are read.
ghost use Rattle.std.specs.Prelude.{◌≡◌};
ghost use Rattle.words.specs.Places.{words_at, got_words};
ghost use Rattle.statements.specs.Statements.{read_many, read_times, read_divided, read_divisor, read_multiple, read_angle};

use crate::mark;
use angles::{Multiple, Scale};
use spots::spot::Fetched;
use words::take;

// `k*pi`
#[tactic(auto, unfolding(crate::specs::Statements::read_many))]
fn many(text: &[u8], from: Option<usize>, scale: Scale) -> Option<Fetched>
    ensures { got_words text.now result ≡ read_many scale (words_at text.now from) }
{
    let k = take::number(text, from, angles::most_times(scale))?;
    let star = mark::mark(text, Some(k.next), b'*');
    let next = mark::pi(text, star)?;
    Some(Fetched {
        value: k.value,
        next,
    })
}

// `0`, `pi` or `k*pi`
#[tactic(auto, unfolding(crate::specs::Statements::read_times))]
fn times(text: &[u8], from: Option<usize>, scale: Scale) -> Option<Fetched>
    ensures { got_words text.now result ≡ read_times scale (words_at text.now from) }
{
    let once = mark::pi(text, from).map(|next| Fetched { value: 1, next });
    once.or_else(|| many(text, from, scale)).or_else(|| mark::mark(text, from, b'0').map(
        |next| Fetched { value: 0, next },
    ))
}

// `/` and a power of two
#[tactic(auto, unfolding(crate::specs::Statements::read_divided))]
fn divided(text: &[u8], from: usize, scale: Scale) -> Option<Fetched>
    ensures { got_words text.now result ≡ read_divided scale (words_at text.now (Some from)) }
{
    let slash = mark::mark(text, Some(from), b'/');
    let d = take::number(text, slash, angles::most_times(scale))?;
    let is_power = angles::is_over(scale, d.value);
    if is_power { Some(d) } else { None }
}

// Over 1 where nothing of that stands there.
#[tactic(auto, unfolding(crate::specs::Statements::read_divisor))]
fn over(text: &[u8], from: usize, scale: Scale) -> Fetched
    ensures { got_words text.now (Some result) ≡ read_divisor scale (words_at text.now (Some from)) }
{
    let plain = Fetched {
        value: 1,
        next: from,
    };
    divided(text, from, scale).unwrap_or(plain)
}

#[tactic(auto, unfolding(crate::specs::Statements::read_multiple))]
fn multiple(text: &[u8], from: Option<usize>, scale: Scale, minus: bool) -> Option<Fetched>
    ensures { got_words text.now result ≡ read_multiple scale minus (words_at text.now from) }
{
    let k = times(text, from, scale)?;
    let d = over(text, k.next, scale);
    let m = Multiple {
        minus,
        k: k.value,
        over: d.value,
    };
    Some(Fetched {
        value: m.count(scale),
        next: d.next,
    })
}

#[tactic(auto, unfolding(crate::specs::Statements::read_angle))]
pub(crate) fn angle(text: &[u8], from: Option<usize>, scale: Scale) -> Option<Fetched>
    ensures { got_words text.now result ≡ read_angle scale (words_at text.now from) }
{
    let minus = mark::mark(text, from, b'-');
    match minus {
        Some(_) => multiple(text, minus, scale, true),
        None => multiple(text, from, scale, false),
    }
}
