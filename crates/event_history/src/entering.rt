//! One entry more in a core, and what its caller takes of it.
ghost use Rattle.std.specs.Prelude.{◌≡◌, IfOk, IfErr};
ghost use Rattle.strong_apa.specs.Step.{IsEventFor};
ghost use Rattle.event_history.specs.Entering.{Entered, IsNoEntry, IsTaken};
ghost use Rattle.event_history.specs.Unread.{may_give_orders, unread_of};
ghost use Rattle.event_history.specs.declared.fault.Receipt.{Receipt};

use crate::fault::{Receipt, Unread};
use link_table::Reply;
use sched_core::{Core, CoreFault};
use task_set::Event;

/// What a caller takes of its entry. A reply is long, so only a caller that reads it takes a copy.
pub trait Taken {
    ghost of_receipt: { Receipt → Self };

    /// What is taken of an entry at this place, with this reply.
    fn of(place: u64, reply: &Reply) -> Self
        ensures { result ≡ of_receipt record { place = place; reply = reply.now } };
}

impl Taken for Receipt {
    ghost of_receipt = { λ receipt. receipt };

    fn of(place: u64, reply: &Reply) -> Receipt {
        Receipt {
            place,
            reply: reply.copy(),
        }
    }
}

impl Taken for Unread {
    ghost of_receipt = { unread_of };

    fn of(place: u64, reply: &Reply) -> Unread {
        Unread {
            place,
            gives_orders: gives_orders(reply),
        }
    }
}

/// Whether a reply may come with orders to a processor.
fn gives_orders(reply: &Reply) -> bool
    ensures { result ≡ may_give_orders reply.now }
{
    match reply {
        Reply::Waits { reach: _ } | Reply::Left | Reply::AlreadyReady | Reply::NotReady => false,
        Reply::Masked | Reply::AlreadyOff | Reply::AlreadyOn => false,
        _ => true,
    }
}

/// One entry more in the core, and what its caller takes of it.
pub fn enter<T: Taken>(core: &mut Core, caller: u32, event: Event) -> Result<T, CoreFault>
    requires { IsEventFor core.old.start event }
    ensures entered { IfOk result (IsTaken T.of_receipt (Entered core.old caller event core.new)) }
    ensures refused { IfErr result (IsNoEntry core.old core.new) }
{
    let place = core.history().len();
    core.apply(caller, event)?;
    Ok(T::of(place as u64, &core.history()[place].reply))
}
