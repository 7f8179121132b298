// The orders from all qubits of a set, worked out once, and whether its gatherings are sure to work.
ghost use Rattle.std.specs.Prelude.{◌≡◌};
ghost use Rattle.nearest.specs.Orders.{orders_of};
ghost use Rattle.nearest.specs.Sure.{Tested, Whenever};

use crate::sure;
use gates::job::Job;
use gathering::gather;
use gathering::gather::Order;
use std::array;

#[derive(Drop)]
pub struct Orders {
    pub near: [u32; Job::QUBITS],
    pub set: u32,
    pub sure: bool,
    pub from: [Order; Job::QUBITS],
    ghost orderly: { from ≡ orders_of near set },
    ghost certain: { Whenever sure (Tested near set) },
}

impl Orders {
    pub(crate) fn new(near: [u32; Job::QUBITS], set: u32) -> Self
        ensures { (result.near ≡ near) × (result.set ≡ set) }
    {
        Orders {
            near,
            set,
            sure: sure::sure(near, set),
            from: array::from_fn(|v| gather::by_distance(near, set, v)),
        }
    }
}
