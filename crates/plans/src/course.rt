// An order on its way to a target. Its methods stand in lib.rt: their contracts use definitions over a `Course`, which this file can't name.
ghost use Rattle.orders.specs.Arranged.{Arranged};

use orders::Order;

// Order and target, both of n variables.
#[derive(Clone, Copy)]
pub struct Course {
    pub order: Order,
    pub target: Order,
    pub n: usize,
    ghost arranged: { (Arranged order n) × (Arranged target n) },
}
