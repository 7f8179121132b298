// What stands at the front of lent memory.
ghost use Rattle.std.specs.Prelude.{◌≡◌, ◌+◌, take};
ghost use Rattle.lines.specs.Lent.{onto};
ghost use Rattle.reading.specs.Limits.{most_bytes};

use crate::INPUT;

// The first n of them, or all where there are fewer.
pub fn first<T>(xs: &[T], n: usize) -> &[T]
    ensures { result.now ≡ take n xs.now }
{
    xs.get(..n).unwrap_or(xs)
}

// What a program reads of a text: as many bytes as go into its memory.
pub fn lend(text: &[u8], input: &mut [u8; INPUT])
    ensures { input.new ≡ onto (take (most_bytes + 1) text.now) input.old }
{
    let own = first(text, INPUT);
    input[..own.len()].copy_from_slice(own);
}
