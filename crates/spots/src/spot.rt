// What is read from a place in the text: a byte, a number.
ghost use Rattle.std.specs.Prelude.{◌≡◌, ◌≤◌, get_or, drop, Some, IfSome};
ghost use Rattle.spots.specs.Numbers.{skipped, digit_of, read_number};
ghost use Rattle.spots.specs.Places.{rest_at, got_of};

// A number that was read, and the place behind it.
#[derive(Clone, Copy)]
pub struct Fetched {
    pub value: u32,
    pub next: usize,
}

// The place behind the byte, where it stands there.
#[tactic(auto, using(crate::proofs::Steps::skip_hit, crate::proofs::Steps::skip_miss, crate::proofs::Steps::skip_end), unfolding(crate::specs::Numbers::skipped))]
pub fn skip(text: &[u8], from: Option<usize>, byte: u8) -> Option<usize>
    ensures { rest_at text.now result ≡ skipped byte (rest_at text.now from) }
{
    let at = from?;
    let x = *text.get(at)?;
    if x == byte { Some(at + 1) } else { None }
}

// The value of the digit at `at`.
#[tactic(auto, unfolding(crate::specs::Numbers::digit_of))]
fn digit(text: &[u8], at: usize) -> Option<u32>
    ensures { result ≡ digit_of (get_or text.now at 0) }
{
    let x = text.get(at).copied()? as u32;
    if 48 <= x && x <= 57 {
        Some(x - 48)
    } else {
        None
    }
}

// A number of at most `most`, without a leading zero. It is kept wider than `most`, which one digit more may pass.
pub fn number_at(text: &[u8], from: usize, most: u32) -> Option<Fetched>
    ensures value { got_of text.now result ≡ read_number most (Some (drop from text.now)) }
    ensures bound { IfSome result (λ n. n.value ≤ most) }
{
    let first = digit(text, from)?;
    let is_nought = first == 0;
    if is_nought {
        return Some(Fetched {
            value: 0,
            next: from + 1,
        });
    }
    let mut v: u64 = 0;
    let mut at = from;
    while let Some(d) = digit(text, at) {
        v = v * 10 + d as u64;
        if (most as u64) < v {
            return None;
        }
        at += 1;
    }
    Some(Fetched {
        value: v as u32,
        next: at,
    })
}

#[tactic(auto, unfolding(crate::specs::Numbers::read_number))]
pub fn number(text: &[u8], from: Option<usize>, most: u32) -> Option<Fetched>
    ensures value { got_of text.now result ≡ read_number most (rest_at text.now from) }
    ensures bound { IfSome result (λ n. n.value ≤ most) }
{
    number_at(text, from?, most)
}
