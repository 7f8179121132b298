// Sets of qubits as numbers, qubit i adding 2^i, and the lists, tables and searches that all crates
// use; parities, columns and asked rows are such sets. It knows nothing of gates.
#![tactic(auto)]

ghost use Rattle.std.specs.Prelude.{◌≡◌};
ghost use Rattle.sets.specs.Bit.{has};
ghost use Rattle.sets.specs.Size.{size_of, lowest_of, single_of, only_of};

// How many qubits x has.
#[tactic(auto, unfolding(crate::specs::Size::size_of))]
pub fn size(x: u32) -> usize
    ensures { result ≡ size_of x }
{
    u32::count_ones(x) as usize
}

// The lowest qubit of x; 32 where x is empty.
#[tactic(auto, unfolding(crate::specs::Size::lowest_of))]
pub fn lowest(x: u32) -> usize
    ensures { result ≡ lowest_of x }
{
    u32::trailing_zeros(x) as usize
}

#[tactic(auto, unfolding(crate::specs::Size::single_of))]
pub fn single(x: u32) -> bool
    ensures { result ≡ single_of x }
{
    u32::count_ones(x) == 1
}

// The set of q alone; empty where no number of 32 digits has q.
pub fn only(q: usize) -> u32
    ensures { result ≡ only_of q }
{
    if q < 32 { 1u32 << q } else { 0 }
}

pub fn holds(x: u32, q: usize) -> bool
    ensures { result ≡ has x q }
{
    q < 32 && (x >> q) % 2 == 1
}
