// Statements behind the register as they are read, on the register of the name.
ghost use Rattle.std.specs.Prelude.{◌≡◌, List, ℕ, ◌≤◌, drop, Some, IfSome};
ghost use Rattle.statements.specs.Limits.{most_qubit};
ghost use Rattle.lines.specs.Kinds.{number_of};
ghost use Rattle.words.specs.Words.{words};
ghost use Rattle.words.specs.Places.{words_at, got_words};
ghost use Rattle.statements.specs.Forms.{half_taken};
ghost use Rattle.statements.specs.Statements.{read_qubit, read_cnot, read_tail, read_opening, read_turn, rotated, read_common, read_newer, read_rotation, read_single, read_plain, read_gate, read_follow, ends_in, ends_at, bad_newer, bad_angle};
ghost use Rattle.statements.specs.Places.{turn_of, turn_at, said_of, said_at};

use crate::{angle, mark};
use angles::Scale;
use lines::kind::Kind;
use spots::spot::Fetched;
use versions::Version;
use words::{take, word};

pub(crate) const MOST_QUBIT: u32 = 255;

// What a statement says: its gate's record, if it is a gate; what it adds to the common phase; and the place behind it.
#[derive(Clone, Copy)]
pub struct Stated {
    pub record: Option<u32>,
    pub phase: u32,
    pub next: usize,
}

// A rotation's qubit and angle, modulo two turns, and the place behind it.
#[derive(Clone, Copy)]
struct Turning {
    qubit: u32,
    angle: u32,
    next: usize,
}

// `NAME[a]`
#[tactic(auto, unfolding(crate::specs::Statements::read_qubit))]
fn qubit(text: &[u8], name: &[u8], from: Option<usize>) -> Option<Fetched>
    ensures value { got_words text.now result ≡ read_qubit name.now (words_at text.now from) }
    ensures bound { IfSome result (λ a. a.value ≤ most_qubit) }
{
    let p0 = take::take(text, from, name);
    let p1 = mark::mark(text, p0, b'[');
    let a = take::number(text, p1, MOST_QUBIT)?;
    let next = mark::mark(text, Some(a.next), b']')?;
    Some(Fetched {
        value: a.value,
        next,
    })
}

// `cx NAME[a],NAME[b];`
#[tactic(auto, unfolding(crate::specs::Statements::read_cnot, gates::specs::Layout::packed))]
fn cnot(text: &[u8], name: &[u8], from: Option<usize>) -> Option<Fetched>
    ensures { got_words text.now result ≡ read_cnot name.now (words_at text.now from) }
{
    let p0 = take::take(text, from, b"cx");
    let a = qubit(text, name, p0)?;
    let p1 = mark::mark(text, Some(a.next), b',');
    let b = qubit(text, name, p1)?;
    let next = mark::mark(text, Some(b.next), b';')?;
    Some(Fetched {
        value: Kind::Cnot as u32 * 16777216 + a.value * 65536 + b.value,
        next,
    })
}

// `) NAME[a];`
#[tactic(auto, unfolding(crate::specs::Statements::read_tail))]
fn tail(text: &[u8], name: &[u8], from: Option<usize>) -> Option<Fetched>
    ensures value { got_words text.now result ≡ read_tail name.now (words_at text.now from) }
    ensures bound { IfSome result (λ a. a.value ≤ most_qubit) }
{
    let p0 = mark::mark(text, from, b')');
    let a = qubit(text, name, p0)?;
    let next = mark::mark(text, Some(a.next), b';')?;
    Some(Fetched {
        value: a.value,
        next,
    })
}

// `u1(`, or with another word
#[tactic(auto, unfolding(crate::specs::Statements::read_opening))]
fn opening(text: &[u8], from: Option<usize>, word: &[u8]) -> Option<usize>
    ensures { words_at text.now result ≡ read_opening word.now (words_at text.now from) }
{
    let p0 = take::take(text, from, word);
    mark::mark(text, p0, b'(')
}

// `u1(ANGLE) NAME[a];`, or with another word
#[tactic(auto, unfolding(crate::specs::Statements::read_turn))]
fn turn(text: &[u8], name: &[u8], from: Option<usize>, word: &[u8]) -> Option<Turning>
    ensures value { turn_at text.now result ≡ read_turn word.now name.now (words_at text.now from) }
    ensures bound { IfSome result (λ t. t.qubit ≤ most_qubit) }
{
    let p0 = opening(text, from, word);
    let k = angle::angle(text, p0, Scale::Units)?;
    let a = tail(text, name, Some(k.next))?;
    Some(Turning {
        qubit: a.value,
        angle: k.value,
        next: a.next,
    })
}

// Minus half the angle of an `rz`, modulo one turn: half of a units are a half units.
#[tactic(auto, unfolding(crate::specs::Forms::half_taken))]
fn half_taken(version: Version, angle: u32) -> u32
    ensures { result ≡ half_taken version angle }
{
    match version {
        Version::Two => 0,
        Version::Three => (131072 - angle % 131072) % 131072,
    }
}

// The rotation's record has its angle modulo one turn.
#[tactic(auto, unfolding(gates::specs::Layout::packed))]
fn rotated(turn: Turning, phase: u32) -> Stated
    requires { turn.qubit ≤ most_qubit }
    ensures { (s : List ℕ) → said_of s result ≡ rotated phase (turn_of s turn) }
{
    Stated {
        record: Some(Kind::Rotation as u32 * 16777216 + turn.qubit * 65536 + turn.angle % 65536),
        phase,
        next: turn.next,
    }
}

// `gphase(ANGLE);`
#[tactic(auto, unfolding(crate::specs::Statements::read_common))]
fn common(text: &[u8], from: Option<usize>) -> Option<Stated>
    ensures { said_at text.now result ≡ read_common (words_at text.now from) }
{
    let p0 = opening(text, from, b"gphase");
    let k = angle::angle(text, p0, Scale::Halves)?;
    let p1 = mark::mark(text, Some(k.next), b')');
    let next = mark::mark(text, p1, b';')?;
    Some(Stated {
        record: None,
        phase: k.value,
        next,
    })
}

// What OpenQASM 3.0 alone has: `p` and `gphase`.
#[tactic(auto, unfolding(crate::specs::Statements::read_newer))]
fn newer(text: &[u8], version: Version, name: &[u8], from: Option<usize>) -> Option<Stated>
    ensures { said_at text.now result ≡ read_newer version name.now (words_at text.now from) }
{
    match version {
        Version::Two => None,
        Version::Three => turn(text, name, from, b"p")
            .map(|p| rotated(p, 0))
            .or_else(|| common(text, from)),
    }
}

// `u1`, `rz`, or what 3.0 alone has.
#[tactic(auto, unfolding(crate::specs::Statements::read_rotation))]
fn rotation(text: &[u8], version: Version, name: &[u8], from: Option<usize>) -> Option<Stated>
    ensures { said_at text.now result ≡ read_rotation version name.now (words_at text.now from) }
{
    turn(text, name, from, b"u1")
        .map(|u| rotated(u, 0))
        .or_else(|| {
            turn(text, name, from, b"rz").map(|z| rotated(z, half_taken(version, z.angle)))
        })
        .or_else(|| newer(text, version, name, from))
}

// `x NAME[a];` or `h NAME[a];`
#[tactic(auto, unfolding(crate::specs::Statements::read_single, gates::specs::Layout::packed))]
fn single(text: &[u8], name: &[u8], from: Option<usize>, byte: u8, kind: Kind) -> Option<Fetched>
    ensures { got_words text.now result ≡ read_single byte (number_of kind) name.now (words_at text.now from) }
{
    let p0 = mark::mark(text, from, byte);
    let a = qubit(text, name, p0)?;
    let next = mark::mark(text, Some(a.next), b';')?;
    Some(Fetched {
        value: kind as u32 * 16777216 + a.value * 65536,
        next,
    })
}

// A CNOT, an X or a Hadamard.
#[tactic(auto, unfolding(crate::specs::Statements::read_plain))]
fn plain(text: &[u8], name: &[u8], from: Option<usize>) -> Option<Fetched>
    ensures { got_words text.now result ≡ read_plain name.now (words_at text.now from) }
{
    cnot(text, name, from)
        .or_else(|| single(text, name, from, b'x', Kind::X))
        .or_else(|| single(text, name, from, b'h', Kind::Hadamard))
}

// The statement at `at`, behind the register of the name.
#[tactic(auto, unfolding(crate::specs::Statements::read_gate))]
pub fn gate(text: &[u8], version: Version, name: &[u8], at: usize) -> Option<Stated>
    ensures { said_at text.now result ≡ read_gate version name.now (Some (words (drop at text.now))) }
{
    plain(text, name, Some(at))
        .map(|g| Stated {
            record: Some(g.value),
            phase: 0,
            next: g.next,
        })
        .or_else(|| rotation(text, version, name, Some(at)))
}

// What can follow an angle: `) NAME[a];`, or `);` alone.
#[derive(Clone, Copy)]
enum Closing {
    OnQubit,
    Alone,
}

// The place behind that.
#[tactic(auto, unfolding(crate::specs::Statements::read_follow))]
fn follow(text: &[u8], name: &[u8], from: usize, closing: Closing) -> Option<usize>
    ensures { words_at text.now result ≡ read_follow closing name.now (words_at text.now (Some from)) }
{
    match closing {
        Closing::OnQubit => tail(text, name, Some(from)).map(|t| t.next),
        Closing::Alone => {
            let p0 = mark::mark(text, Some(from), b')');
            mark::mark(text, p0, b';')
        }
    }
}

// Whether the statement that goes on at `from` holds what can follow an angle.
#[tactic(auto, using(words::proofs::Runs::same_bytes), unfolding(crate::specs::Statements::ends_in))]
fn ends_in(text: &[u8], name: &[u8], from: usize, closing: Closing) -> bool
    ensures { result ≡ ends_in closing name.now (words (drop from text.now)) }
{
    let mut at = from;
    while let Some(b) = word::next(text, at) {
        let is_end = &text[b.from..b.to] == b";".as_slice();
        if is_end {
            return false;
        }
        if follow(text, name, at, closing).is_some() {
            return true;
        }
        at = b.to;
    }
    false
}

// Whether the statement begins with the word and `(`, and holds what can follow an angle.
#[tactic(auto, unfolding(crate::specs::Statements::ends_at))]
fn bad_in(text: &[u8], name: &[u8], at: usize, word: &[u8], closing: Closing) -> bool
    ensures { result ≡ ends_at closing name.now (read_opening word.now (Some (words (drop at text.now)))) }
{
    opening(text, Some(at), word).is_some_and(|p| ends_in(text, name, p, closing))
}

#[tactic(auto, unfolding(crate::specs::Statements::bad_newer))]
fn bad_newer(text: &[u8], version: Version, name: &[u8], at: usize) -> bool
    ensures { result ≡ bad_newer version name.now (Some (words (drop at text.now))) }
{
    match version {
        Version::Two => false,
        Version::Three => {
            bad_in(text, name, at, b"p", Closing::OnQubit)
                || bad_in(text, name, at, b"gphase", Closing::Alone)
        }
    }
}

// Whether only the angle of the statement is wrong.
#[tactic(auto, unfolding(crate::specs::Statements::bad_angle))]
pub fn bad_angle(text: &[u8], version: Version, name: &[u8], at: usize) -> bool
    ensures { result ≡ bad_angle version name.now (Some (words (drop at text.now))) }
{
    bad_in(text, name, at, b"u1", Closing::OnQubit)
        || bad_in(text, name, at, b"rz", Closing::OnQubit)
        || bad_newer(text, version, name, at)
}
