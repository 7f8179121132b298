// The stretch that begins at a place, and the Hadamard that ends it.
ghost use Rattle.std.specs.Prelude.{◌≡◌, drop};
ghost use Rattle.gates.specs.Hadamards.{is_hadamard};
ghost use Rattle.stretches.specs.Cut.{first_at};
ghost use Rattle.stretches.specs.Stretches.{stretch_at};
ghost use Rattle.stretches.specs.Parts.{hadamard_at};

use gates::hadamard;

// The gates from a place on; none from a place behind them.
fn gates_from(gates: &[u32], from: usize) -> &[u32]
    ensures { result.now ≡ drop from gates.now }
{
    gates.get(from..).unwrap_or(&[])
}

// How many gates stand before the first Hadamard.
fn len_of(n: usize, gates: &[u32]) -> usize
    ensures { result ≡ first_at (is_hadamard n) gates.now }
{
    gates
        .iter()
        .position(|&x| hadamard::is_hadamard(x, n))
        .unwrap_or(gates.len())
}

pub fn stretch_at(n: usize, gates: &[u32], from: usize) -> &[u32]
    ensures { result.now ≡ stretch_at n gates.now from }
{
    let rest = gates_from(gates, from);
    let end = len_of(n, rest);
    &rest[..end]
}

// Nothing where no Hadamard ends the stretch.
pub fn hadamard_at(n: usize, gates: &[u32], from: usize) -> &[u32]
    ensures { result.now ≡ hadamard_at n gates.now from }
{
    let rest = gates_from(gates, from);
    let end = len_of(n, rest);
    let behind = gates_from(rest, end);
    behind.get(..1).unwrap_or(&[])
}
