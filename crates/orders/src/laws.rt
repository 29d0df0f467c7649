//! Laws of orders, for any type `K` of what a node keeps.

ghost use Rattle.orders.specs.Laws.{OrderExists, OrdersAgree, OrdersRun, RunIsOne, WiresReadAlone};

/// Any two orders of the events of all waves leave the same state.
pub fn orders_agree<K>()
    ensures { OrdersAgree K }
{}

/// Every order of the events of a wave leaves its closed form.
pub fn orders_run<K>()
    ensures { OrdersRun K }
{}

/// The closed form of a wave is one state.
pub fn run_is_one<K>()
    ensures { RunIsOne K }
{}

/// Every wave in which no node stands twice has an order.
pub fn order_exists()
    ensures { OrderExists }
{}

/// A node that reads sample k of some buffers in its event k, in which no other node of the wave writes, reads alone.
pub fn wires_read_alone()
    ensures { WiresReadAlone }
{}
