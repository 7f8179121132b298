// Words taken one by one: a given one, a number, a name.
ghost use Rattle.std.specs.Prelude.{◌≡◌, ◌≤◌, IfSome};
ghost use Rattle.words.specs.Taking.{taken, numbered};
ghost use Rattle.words.specs.Places.{words_at, got_words, NameAt};

use crate::byte;
use crate::word::{self, Bounds};
use spots::spot;
use spots::spot::Fetched;

// The place behind the word, where it stands there.
#[tactic(auto, using(crate::proofs::Runs::same_bytes), unfolding(crate::specs::Taking::taken))]
pub fn take(text: &[u8], from: Option<usize>, word: &[u8]) -> Option<usize>
    ensures { words_at text.now result ≡ taken word.now (words_at text.now from) }
{
    let b = word::next(text, from?)?;
    let is_same = &text[b.from..b.to] == word;
    if is_same { Some(b.to) } else { None }
}

// A number of at most `most`.
#[tactic(auto, using(crate::proofs::Takes::left_over), unfolding(crate::specs::Taking::numbered))]
pub fn number(text: &[u8], from: Option<usize>, most: u32) -> Option<Fetched>
    ensures value { got_words text.now result ≡ numbered most (words_at text.now from) }
    ensures bound { IfSome result (λ n. n.value ≤ most) }
{
    let b = word::next(text, from?)?;
    let w = &text[b.from..b.to];
    let n = spot::number_at(w, 0, most)?;
    let is_longer = n.next < w.len();
    if is_longer {
        return None;
    }
    Some(Fetched {
        value: n.value,
        next: b.to,
    })
}

// Where a name stands.
#[tactic(auto, unfolding(crate::specs::Taking::named, crate::specs::Taking::front_word))]
pub fn name(text: &[u8], from: Option<usize>) -> Option<Bounds>
    ensures { NameAt text.now from result }
{
    let b = word::next(text, from?)?;
    let is_name = byte::is_name(&text[b.from..b.to]);
    if is_name { Some(b) } else { None }
}
