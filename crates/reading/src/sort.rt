// The two sorts of lines behind the first: those of couplers, and those of gates.
#[derive(Clone, Copy)]
pub enum Sort {
    Couplers,
    Gates,
}
