// The depth of a list of gates: how many layers its CNOTs take.
ghost use Rattle.std.specs.Prelude.{◌≡◌, ◌+◌, ◌<◌, ◌≤◌, get_or, length, replicate, set};
ghost use Rattle.gates.specs.Layout.{gates_of};
ghost use Rattle.gates.specs.Limits.{most_qubits};
ghost use Rattle.tallies.specs.Tally.{raised, layered, layers_from, layers_after, highest, depth_of};

use gates::gate;
use gates::gate::Gate;
use gates::job::Job;

// The layer of the last CNOT on each wire, 0 where there is none yet.
#[derive(Clone, Copy)]
pub struct Layers {
    last: [usize; Job::QUBITS],
}

impl Layers {
    // Before the first gate.
    pub fn none() -> Layers
        ensures { result.last ≡ replicate most_qubits 0 }
    {
        Layers {
            last: [0; Job::QUBITS],
        }
    }

    // The layer of the last CNOT on wire q; past the last wire there is none.
    fn on(&self, q: usize) -> usize
        ensures { result ≡ get_or self.now.last q 0 }
    {
        self.last.get(q).copied().unwrap_or(0)
    }

    // Wire q is in layer k from now on; nothing changes past the last wire.
    fn put(&mut self, q: usize, k: usize)
        ensures { self.new.last ≡ set self.old.last q k }
    {
        if q < Job::QUBITS {
            self.last[q] = k;
        }
    }

    // A CNOT on the wires c and t.
    fn raise(&mut self, c: usize, t: usize)
        requires { highest self.old.last < 18446744073709551615 }
        ensures { self.new.last ≡ raised c t self.old.last }
    {
        let k = self.on(c).max(self.on(t)) + 1;
        self.put(c, k);
        self.put(t, k);
    }

    pub fn highest(self) -> usize
        ensures { result ≡ highest self.last }
    {
        self.last.iter().fold(0, |most, &k| k.max(most))
    }

    fn feed(&mut self, g: Gate)
        requires { highest self.old.last < 18446744073709551615 }
        ensures { self.new.last ≡ layered g self.old.last }
    {
        if let Gate::Cnot { control, target } = g {
            self.raise(control, target);
        }
    }

    fn feed_all(&mut self, records: &[u32], n: usize)
        requires { highest self.old.last + length records.now ≤ 18446744073709551615 }
        ensures { self.new.last ≡ layers_from (gates_of n records.now) self.old.last }
    {
        for &x in records {
            self.feed(gate::decode(x, n));
        }
    }

    // The layers after more gates, so that a list can be handed over in parts.
    pub fn fed(self, records: &[u32], n: usize) -> Layers
        ensures { result.last ≡ layers_after (gates_of n records.now) self.last }
    {
        let mut next = self;
        if records.len() <= usize::MAX - self.highest() {
            next.feed_all(records, n);
        }
        next
    }
}

pub fn depth(records: &[u32], n: usize) -> usize
    ensures { result ≡ depth_of (gates_of n records.now) }
{
    let mut layers = Layers::none();
    layers.feed_all(records, n);
    layers.highest()
}
