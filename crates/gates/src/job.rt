// A job: the number of its qubits, and how many records its two lists hold. The lists themselves
// are lent beside it.
#[derive(Clone, Copy)]
pub struct Job {
    pub qubits: usize,
    pub couplers: usize,
    pub gates: usize,
}

impl Job {
    pub const QUBITS: usize = 20;

    pub const COUPLERS: usize = 190;

    // Different parities that bear a rotation.
    pub const PARITIES: usize = 256;

    pub const GATES: usize = 4096;
}
