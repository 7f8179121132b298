// How the statements are spelt: each line as a pattern, and the numbers that stand in it.
ghost use Rattle.std.specs.Prelude.{◌≡◌, [], length, MatchOption};
ghost use Rattle.lines.specs.Kinds.{number_of};
ghost use Rattle.lines.specs.Lent.{Fitted};
ghost use Rattle.lines.specs.Pattern.{filled};
ghost use Rattle.lines.specs.Room.{room_after};
ghost use Rattle.qasm_lines.specs.Spelling.{pattern, turn_pattern, numbers_in, head_pattern, phase_pattern, gate_text, head_text, phase_text};

use lines::kind::Kind;
use lines::pattern;
use lines::records::RecordLines;
use versions::Version;

#[derive(Clone, Copy)]
pub(crate) struct Line<const N: usize> {
    pattern: &'static [u8],
    numbers: [usize; N],
}

impl<const N: usize> Line<N> {
    // What a room has left behind it.
    pub(crate) fn after(&self, room: Option<usize>) -> Option<usize>
        ensures { result ≡ room_after room (length (filled self.now.pattern.now self.now.numbers)) }
    {
        pattern::after_pattern(room, self.pattern, &self.numbers)
    }

    // The place behind it, or `at` where it does not fit; then nothing is written.
    pub(crate) fn put(&self, text: &mut [u8], at: usize) -> usize
        ensures { Fitted text.old at (filled self.now.pattern.now self.now.numbers) text.new result }
    {
        pattern::put_pattern(text, at, self.pattern, &self.numbers)
    }
}

#[tactic(auto, unfolding(crate::specs::Spelling::head_text))]
pub(crate) fn head(version: Version, n: usize) -> Line<1>
    ensures { filled result.pattern.now result.numbers ≡ head_text version n }
{
    Line {
        pattern: head_pattern(version),
        numbers: [n],
    }
}

#[tactic(auto, using(crate::proofs::Spelt::pattern_kind), unfolding(crate::specs::Spelling::gate_text))]
pub(crate) fn gate(version: Version, x: u32) -> Line<2>
    ensures { filled result.pattern.now result.numbers ≡ gate_text version x }
{
    Line {
        pattern: pattern_of(version, Kind::of(x)),
        numbers: numbers_of(x),
    }
}

// The gates of a circuit, a line each.
#[derive(Clone, Copy)]
pub(crate) struct GateLines {
    pub(crate) version: Version,
}

impl RecordLines for GateLines {
    ghost line = { λ it. gate_text it.version };

    fn after_record(&self, room: Option<usize>, x: u32) -> Option<usize> {
        gate(self.version, x).after(room)
    }

    fn put_record(&self, text: &mut [u8], at: usize, x: u32) -> usize {
        gate(self.version, x).put(text, at)
    }
}

// The line of a common phase; none where it is 0.
#[tactic(auto, unfolding(crate::specs::Spelling::phase_text))]
pub(crate) fn phase(version: Version, phase: u32) -> Option<Line<1>>
    ensures { MatchOption result ([] ≡ phase_text version phase) (λ line. filled line.pattern.now line.numbers ≡ phase_text version phase) }
{
    let g = phase % 131072;
    let is_none = g == 0;
    if is_none {
        return None;
    }
    Some(Line {
        pattern: phase_pattern(version),
        numbers: [g as usize],
    })
}

// A coupler, which no circuit has, is spelt as a Hadamard.
#[tactic(auto, unfolding(crate::specs::Spelling::pattern))]
fn pattern_of(version: Version, kind: Kind) -> &'static [u8]
    ensures { result.now ≡ pattern version (number_of kind) }
{
    match kind {
        Kind::Cnot => b"cx q[#],q[#];\n",
        Kind::Rotation => turn_pattern(version),
        Kind::X => b"x q[#];\n",
        Kind::Hadamard | Kind::Coupler => b"h q[#];\n",
    }
}

fn turn_pattern(version: Version) -> &'static [u8]
    ensures { result.now ≡ turn_pattern version }
{
    match version {
        Version::Two => b"u1(#*pi/32768) q[#];\n",
        Version::Three => b"p(#*pi/32768) q[#];\n",
    }
}

// A rotation's units stand before its qubit.
#[tactic(auto, using(crate::proofs::Spelt::numbers_turn, crate::proofs::Spelt::numbers_other), unfolding(gates::specs::Layout::a_in, gates::specs::Layout::b_in))]
fn numbers_of(x: u32) -> [usize; 2]
    ensures { result ≡ numbers_in x }
{
    let a = (x / 65536 % 256) as usize;
    let b = (x % 65536) as usize;
    match Kind::of(x) {
        Kind::Rotation => [b, a],
        _ => [a, b],
    }
}

fn head_pattern(version: Version) -> &'static [u8]
    ensures { result.now ≡ head_pattern version }
{
    match version {
        Version::Two => b"OPENQASM 2.0;\ninclude \"qelib1.inc\";\nqreg q[#];\n",
        Version::Three => b"OPENQASM 3.0;\ninclude \"stdgates.inc\";\nqubit[#] q;\n",
    }
}

fn phase_pattern(version: Version) -> &'static [u8]
    ensures { result.now ≡ phase_pattern version }
{
    match version {
        Version::Two => b"// common phase #*pi/65536\n",
        Version::Three => b"gphase(#*pi/65536);\n",
    }
}
