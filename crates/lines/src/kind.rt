// The kinds of records: the letter that a record's line begins with, and how many numbers follow it.
ghost use Rattle.std.specs.Prelude.{◌≡◌};
ghost use Rattle.gates.specs.Layout.{kind_in};
ghost use Rattle.lines.specs.Kinds.{number_of, kind_of};
ghost use Rattle.lines.specs.Lines.{letter, fields_in};

#[derive(Clone, Copy, PartialEq, Eq)]
pub enum Kind {
    Coupler,
    Cnot,
    Rotation,
    X,
    Hadamard,
}

impl Kind {
    // The kind of a record.
    #[tactic(auto, unfolding(gates::specs::Layout::kind_in))]
    pub fn of(x: u32) -> Kind
        ensures { result ≡ kind_of (kind_in x) }
    {
        Kind::numbered(x / 16777216)
    }

    // The kind that has the number; what no kind has is written as a Hadamard.
    #[tactic(auto, using(crate::proofs::Shown::kind_from))]
    pub fn numbered(kind: u32) -> Kind
        ensures { result ≡ kind_of kind }
    {
        match kind {
            0 => Kind::Coupler,
            1 => Kind::Cnot,
            2 => Kind::Rotation,
            3 => Kind::X,
            _ => Kind::Hadamard,
        }
    }

    #[tactic(auto, unfolding(crate::specs::Lines::letter))]
    pub fn letter(self) -> u8
        ensures { result ≡ letter (number_of self) }
    {
        match self {
            Kind::Coupler => b'e',
            Kind::Cnot => b'c',
            Kind::Rotation => b'r',
            Kind::X => b'n',
            Kind::Hadamard => b'h',
        }
    }

    // An X and a Hadamard have their qubit alone.
    #[tactic(auto, unfolding(crate::specs::Lines::fields_in))]
    pub fn fields(self) -> usize
        ensures { result ≡ fields_in (number_of self) }
    {
        match self {
            Kind::X | Kind::Hadamard => 1,
            _ => 2,
        }
    }
}
