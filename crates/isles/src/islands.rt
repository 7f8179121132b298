// The island of each qubit.
ghost use Rattle.std.specs.Prelude.{◌≡◌};
ghost use Rattle.isles.specs.Islands.{islands_of};

use chip::search;
use gates::job::Job;
use std::array;

// The set of all 20 qubits.
const EVERY: u32 = 1048575;

// All that chains of couplers join to each qubit.
pub fn islands(near: [u32; Job::QUBITS]) -> [u32; Job::QUBITS]
    ensures { result ≡ islands_of near }
{
    array::from_fn(|q| search::reached(near, EVERY, sets::only(q)))
}
