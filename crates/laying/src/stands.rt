// An island that stands: it has no terms, and each of its wires is asked for its own parity.
ghost use Rattle.std.specs.Prelude.{◌≡◌};
ghost use Rattle.laying.specs.Stands.{off_of, some_off, stands_of};

use gates::job::Job;
use share::own::Own;

// Wire i of the set is asked for x, which is not its own parity.
#[tactic(auto, unfolding(crate::specs::Stands::off_of))]
fn is_off(set: u32, i: usize, x: u32) -> bool
    ensures { result ≡ off_of set i x }
{
    sets::holds(set, i) && x != sets::only(i)
}

fn some_off(set: u32, asked: [u32; Job::QUBITS]) -> bool
    ensures { result ≡ some_off set asked }
{
    for i in 0..Job::QUBITS {
        if is_off(set, i, asked[i]) {
            return true;
        }
    }
    false
}

#[tactic(auto, unfolding(crate::specs::Stands::stands_of))]
pub(crate) fn stands(own: Own) -> bool
    ensures { result ≡ stands_of own }
{
    let is_bare = own.terms.len == 0;
    is_bare && !some_off(own.set, own.asked)
}
