// A record, a 32-bit number, as the three numbers that it holds.
ghost use Rattle.std.specs.Prelude.{◌≡◌, ◌<◌};
ghost use Rattle.gates.specs.Layout.{packed, kind_in, a_in, b_in};

#[derive(Clone, Copy)]
pub struct Record {
    pub kind: u32,
    pub a: usize,
    pub b: u32,
}

impl Record {
    #[tactic(auto, unfolding(crate::specs::Layout::kind_in, crate::specs::Layout::a_in, crate::specs::Layout::b_in))]
    pub fn of(x: u32) -> Record
        ensures kind { result.kind ≡ kind_in x }
        ensures a { result.a ≡ a_in x }
        ensures b { result.b ≡ b_in x }
    {
        Record {
            kind: x / 16777216,
            a: (x / 65536 % 256) as usize,
            b: x % 65536,
        }
    }

    // The record of three numbers that fit it.
    #[tactic(auto, unfolding(crate::specs::Layout::packed))]
    pub(crate) fn number(self) -> u32
        requires { (self.kind < 256) × (self.a < 256) × (self.b < 65536) }
        ensures { result ≡ packed self.kind self.a self.b }
    {
        self.kind * 16777216 + self.a as u32 * 65536 + self.b
    }
}
