// The letter that the line of a record of any number begins with, and how many numbers follow it.
ghost use Rattle.std.specs.Prelude.{◌≡◌};
ghost use Rattle.lines.specs.Lines.{letter, fields_in};

use crate::kind::Kind;

#[tactic(auto, using(crate::proofs::Shown::shown))]
pub fn letter_of(kind: u32) -> u8
    ensures { result ≡ letter kind }
{
    Kind::numbered(kind).letter()
}

#[tactic(auto, using(crate::proofs::Shown::shown))]
pub fn fields_of(kind: u32) -> usize
    ensures { result ≡ fields_in kind }
{
    Kind::numbered(kind).fields()
}
