//! Orders that go through the queue at once. A step of the queue costs as much for four orders as for one.
ghost use Rattle.std.specs.Prelude.{◌≡◌, ◌<◌, ◌∷◌, length, take, MatchOption, []};
ghost use Rattle.order_queues.specs.Batches.{batch_orders, left_in};

use task_set::Order;

/// Up to three orders: those before the first place that is empty.
#[derive(Clone, Copy)]
pub struct Rest {
    first: Option<Order>,
    second: Option<Order>,
    third: Option<Order>,
}

/// Orders that go in and come out together.
#[derive(Clone, Copy)]
pub struct Batch {
    first: Order,
    rest: Rest,
}

impl Rest {
    /// No orders.
    pub fn none() -> Rest
        ensures { left_in result ≡ [] }
    {
        Rest {
            first: None,
            second: None,
            third: None,
        }
    }

    /// The first of these orders, three where there are as many.
    fn of(orders: &[Order]) -> Rest
        ensures { left_in result ≡ take (length (left_in result)) orders.now }
    {
        Rest {
            first: orders.get(0).copied(),
            second: orders.get(1).copied(),
            third: orders.get(2).copied(),
        }
    }

    /// How many orders it has.
    fn count(&self) -> usize
        ensures { result ≡ length (left_in self.now) }
    {
        match (self.first, self.second, self.third) {
            (None, _, _) => 0,
            (Some(_), None, _) => 1,
            (Some(_), Some(_), None) => 2,
            (Some(_), Some(_), Some(_)) => 3,
        }
    }

    /// The first order that is left, and the others, where there is one.
    pub fn split(self) -> Option<(Order, Rest)>
        ensures { MatchOption result (left_in self ≡ []) (λ taken. left_in self ≡ taken.0 ∷ left_in taken.1) }
    {
        match self.first {
            None => None,
            Some(order) => Some((
                order,
                Rest {
                    first: self.second,
                    second: self.third,
                    third: None,
                },
            )),
        }
    }
}

impl Batch {
    /// The first of these orders, four where there are as many.
    pub fn of(orders: &[Order]) -> Batch
        requires { 0 < length orders.now }
        ensures { batch_orders result ≡ take (length (batch_orders result)) orders.now }
    {
        Batch {
            first: orders[0],
            rest: Rest::of(&orders[1..]),
        }
    }

    /// How many orders it has.
    pub fn count(&self) -> usize
        ensures { result ≡ length (batch_orders self.now) }
    {
        1 + self.rest.count()
    }

    /// The first order, and the others.
    pub fn split(self) -> (Order, Rest)
        ensures { batch_orders self ≡ result.0 ∷ left_in result.1 }
    {
        (self.first, self.rest)
    }
}
