// The first three statements.
ghost use Rattle.std.specs.Prelude.{◌≡◌, drop};
ghost use Rattle.words.specs.Words.{words};
ghost use Rattle.words.specs.Places.{words_at, got_words};
ghost use Rattle.words.specs.Taking.{taken};
ghost use Rattle.statements.specs.Spelling.{numeral, library, mark};
ghost use Rattle.statements.specs.Statements.{read_version, read_include, read_size, has_end};
ghost use Rattle.statements.specs.Places.{RegisterAt};
ghost use Rattle.versions.specs.declared.Version.TheVariants.{Two, Three};

use crate::gate::MOST_QUBIT;
use crate::mark;
use spots::spot::Fetched;
use versions::Version;
use words::take;
use words::word::{self, Bounds};

// Two words and `;`
fn pair(text: &[u8], from: Option<usize>, first: &[u8], second: &[u8]) -> Option<usize>
    ensures { words_at text.now result ≡ taken (mark 59) (taken second.now (taken first.now (words_at text.now from))) }
{
    let p0 = take::take(text, from, first);
    let p1 = take::take(text, p0, second);
    mark::mark(text, p1, b';')
}

fn numeral(version: Version) -> &'static [u8]
    ensures { result.now ≡ numeral version }
{
    match version {
        Version::Two => b"2.0",
        Version::Three => b"3.0",
    }
}

fn library(version: Version) -> &'static [u8]
    ensures { result.now ≡ library version }
{
    match version {
        Version::Two => b"\"qelib1.inc\"",
        Version::Three => b"\"stdgates.inc\"",
    }
}

#[tactic(auto, unfolding(crate::specs::Statements::read_version))]
pub fn version(text: &[u8], from: Option<usize>, version: Version) -> Option<usize>
    ensures { words_at text.now result ≡ read_version version (words_at text.now from) }
{
    pair(text, from, b"OPENQASM", numeral(version))
}

#[tactic(auto, unfolding(crate::specs::Statements::read_include))]
pub fn include(text: &[u8], from: Option<usize>, version: Version) -> Option<usize>
    ensures { words_at text.now result ≡ read_include version (words_at text.now from) }
{
    pair(text, from, b"include", library(version))
}

// Where the register's name stands, its size, and what is behind the statement.
#[derive(Clone, Copy)]
pub struct Declared {
    pub name: Bounds,
    pub size: u32,
    pub next: usize,
}

// `[n]`
#[tactic(auto, unfolding(crate::specs::Statements::read_size))]
fn size(text: &[u8], from: Option<usize>) -> Option<Fetched>
    ensures { got_words text.now result ≡ read_size (words_at text.now from) }
{
    let p0 = mark::mark(text, from, b'[');
    let n = take::number(text, p0, MOST_QUBIT)?;
    let next = mark::mark(text, Some(n.next), b']')?;
    Some(Fetched {
        value: n.value,
        next,
    })
}

// `qreg NAME[n];`
#[tactic(auto, unfolding(crate::specs::Statements::read_register, crate::specs::Statements::read_name, crate::specs::Statements::read_size, words::specs::Taking::taken, words::specs::Taking::numbered))]
fn classic(text: &[u8], from: Option<usize>) -> Option<Declared>
    ensures { RegisterAt Two text.now from result }
{
    let p0 = take::take(text, from, b"qreg");
    let name = take::name(text, p0)?;
    let n = size(text, Some(name.to))?;
    let next = mark::mark(text, Some(n.next), b';')?;
    Some(Declared {
        name,
        size: n.value,
        next,
    })
}

// `qubit[n] NAME;`
#[tactic(auto, unfolding(crate::specs::Statements::read_register, crate::specs::Statements::read_name, crate::specs::Statements::read_size, words::specs::Taking::taken, words::specs::Taking::numbered))]
fn sized(text: &[u8], from: Option<usize>) -> Option<Declared>
    ensures { RegisterAt Three text.now from result }
{
    let p0 = take::take(text, from, b"qubit");
    let n = size(text, p0)?;
    let name = take::name(text, Some(n.next))?;
    let next = mark::mark(text, Some(name.to), b';')?;
    Some(Declared {
        name,
        size: n.value,
        next,
    })
}

pub fn register(text: &[u8], from: Option<usize>, version: Version) -> Option<Declared>
    ensures { RegisterAt version text.now from result }
{
    match version {
        Version::Two => classic(text, from),
        Version::Three => sized(text, from),
    }
}

// Whether the statement that begins at `from` ends.
#[tactic(auto, using(words::proofs::Runs::same_bytes), unfolding(crate::specs::Statements::has_end))]
pub fn has_end(text: &[u8], from: usize) -> bool
    ensures { result ≡ has_end (words (drop from text.now)) }
{
    let mut at = from;
    while let Some(b) = word::next(text, at) {
        let is_end = &text[b.from..b.to] == b";".as_slice();
        if is_end {
            return true;
        }
        at = b.to;
    }
    false
}
