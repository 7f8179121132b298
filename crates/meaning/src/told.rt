// The meaning of a list of gates, told by feeding them one by one.
ghost use Rattle.std.specs.Prelude.{◌≡◌};
ghost use Rattle.meaning.specs.Told.{told_of};

use circuit::wires::{Wires, borne_on, shift, taken, together};
use gates::gate;
use gates::gate::Gate;
use table::sums::Sums;

#[derive(Clone, Copy)]
pub struct Meaning {
    pub wires: Wires,
    pub sums: Sums,
    // The phase common to all states.
    pub phase: u32,
}

// The meaning of the first `fed` gates: of all, or of those before the 257th parity.
#[derive(Clone, Copy)]
pub struct Told {
    pub meaning: Meaning,
    pub fed: usize,
}

// The wires, the table and the phase are locals of their own: the wires come back changed for each gate, and would be
// copied out of a meaning and into it each time.
pub fn tell(records: &[u32], n: usize) -> Told
    ensures { result ≡ told_of n records.now }
{
    let mut wires = Wires::new();
    let mut sums = Sums::none();
    let mut phase: u32 = 0;
    for (fed, &x) in records.iter().enumerate() {
        let g = gate::decode(x, n);
        match g {
            Gate::Rotation { qubit, angle } => {
                let Wires { parity, flip } = wires;
                let f = borne_on(flip, qubit);
                let added = sums.add(borne_on(parity, qubit), taken(f, angle));
                if added.is_err() {
                    let meaning = Meaning { wires, sums, phase };
                    return Told { meaning, fed };
                }
                phase = together(phase, shift(f, angle));
            }
            _ => {
                wires = wires.feed(g);
            }
        }
    }
    let meaning = Meaning { wires, sums, phase };
    Told {
        meaning,
        fed: records.len(),
    }
}
