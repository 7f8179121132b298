// Bytes, and runs of them.
ghost use Rattle.std.specs.Prelude.{◌≡◌};
ghost use Rattle.words.specs.Bytes.{between, blank, in_name, in_word, goes_on, line_behind};
ghost use Rattle.words.specs.Taking.{all_in_name, is_name};

#[tactic(auto, unfolding(crate::specs::Bytes::blank))]
pub(crate) fn is_blank(x: u8) -> bool
    ensures { result ≡ blank x }
{
    x == b' ' || x == b'\t' || x == b'\r' || x == b'\n'
}

fn is_between(a: u8, b: u8, x: u8) -> bool
    ensures { result ≡ between a b x }
{
    a <= x && x <= b
}

#[tactic(auto, unfolding(crate::specs::Bytes::in_name, crate::specs::Bytes::small))]
fn in_name(x: u8) -> bool
    ensures { result ≡ in_name x }
{
    is_between(b'a', b'z', x) || is_between(b'A', b'Z', x) || is_between(b'0', b'9', x) || x == b'_'
}

#[tactic(auto, unfolding(crate::specs::Bytes::in_word))]
fn in_word(x: u8) -> bool
    ensures { result ≡ in_word x }
{
    in_name(x) || x == b'.'
}

// Whether x goes on a word that begins with f.
#[tactic(auto, using(crate::proofs::Runs::goes_quote), unfolding(crate::specs::Bytes::goes_on))]
pub(crate) fn goes_on(f: u8, x: u8) -> bool
    ensures { result ≡ goes_on f x }
{
    if f == b'"' {
        in_word(x) || x == b'"'
    } else {
        in_word(f) && in_word(x)
    }
}

fn all_in_name(w: &[u8]) -> bool
    ensures { result ≡ all_in_name w.now }
{
    w.iter().all(|x| in_name(*x))
}

// A name begins with a small letter.
#[tactic(auto, using(crate::proofs::Runs::name_first, crate::proofs::Runs::name_other, crate::proofs::Runs::name_empty), unfolding(crate::specs::Bytes::small))]
pub(crate) fn is_name(w: &[u8]) -> bool
    ensures { result ≡ is_name w.now }
{
    if w.is_empty() {
        return false;
    }
    let is_small = is_between(b'a', b'z', w[0]);
    is_small && all_in_name(&w[1..])
}

// The line behind these bytes, from 1.
pub fn line_behind(text: &[u8]) -> usize
    ensures { result ≡ line_behind text.now }
{
    1 + text.iter().filter(|x| **x == b'\n').count()
}
