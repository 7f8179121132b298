// A text as it is written: the memory that is lent for it, and the place behind what stands there.
ghost use Rattle.std.specs.Prelude.{[], ◌∷◌};
ghost use Rattle.lines.specs.Lines.{digits};
ghost use Rattle.lines.specs.Page.{HasRoom, Puts};

#[derive(Drop)]
pub(crate) struct Page<'a> {
    pub(crate) text: &'a mut [u8],
    pub(crate) at: usize,
}

impl Page<'_> {
    pub(crate) fn put(&mut self, byte: u8)
        requires { HasRoom self.old (byte ∷ []) }
        ensures { Puts self.old (byte ∷ []) self.new }
    {
        self.text[self.at] = byte;
        self.at += 1;
    }

    #[tactic(auto, using(crate::proofs::Digits::digit_steps))]
    pub(crate) fn put_number(&mut self, v: usize)
        requires { HasRoom self.old (digits v) }
        ensures { Puts self.old (digits v) self.new }
    {
        if v < 10 {
            self.put((48 + v) as u8);
            return;
        }
        self.put_number(v / 10);
        self.put((48 + v % 10) as u8);
    }

    // A tab, then the number.
    pub(crate) fn put_field(&mut self, v: usize)
        requires { HasRoom self.old (9 ∷ digits v) }
        ensures { Puts self.old (9 ∷ digits v) self.new }
    {
        self.put(b'\t');
        self.put_number(v);
    }
}
