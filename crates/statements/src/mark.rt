// A word of one byte.
ghost use Rattle.std.specs.Prelude.{◌≡◌, [], ◌∷◌};
ghost use Rattle.words.specs.Taking.{taken};
ghost use Rattle.words.specs.Places.{words_at};
ghost use Rattle.statements.specs.Spelling.{pi};

use words::take;

pub(crate) fn mark(text: &[u8], from: Option<usize>, byte: u8) -> Option<usize>
    ensures { words_at text.now result ≡ taken (byte ∷ []) (words_at text.now from) }
{
    take::take(text, from, &[byte])
}

pub(crate) fn pi(text: &[u8], from: Option<usize>) -> Option<usize>
    ensures { words_at text.now result ≡ taken pi (words_at text.now from) }
{
    take::take(text, from, b"pi")
}
