//! The eyes of a pass: what it knows of how far each processor is.
ghost use Rattle.std.specs.Prelude.{◌≡◌, IfOk, map};
ghost use Rattle.order_queues.specs.Ends.{new_eye};
ghost use Rattle.event_history.specs.Holdings.{queues_of};

use affinity_mask::OutOfMemory;
use order_queues::{Eye, Queue, Sender};
use std::alloc::Global;
use std::marker::Model;

/// An eye for each queue.
#[derive(Drop)]
pub struct Eyes {
    pub(crate) row: Vec<Eye>,
}

impl Model for Eyes {
    ghost use Rattle.std.specs.Prelude.{List};
    ghost use Rattle.order_queues.specs.Ends.{EyeData};

    ghost Value = { List EyeData };

    ghost use Rattle.event_history.specs.EyesParts.{eyes_data};

    ghost view = { eyes_data };
}

impl Eyes {
    /// An eye of each queue that knows nothing. Refused only out of memory.
    pub fn new(
        alloc: Global,
        queues: &[Queue],
        senders: &mut Vec<Sender>,
    ) -> Result<Eyes, OutOfMemory>
        requires { queues_of senders.old.items ≡ queues.now }
        ensures senders { senders.new.items ≡ senders.old.items }
        ensures eyes { IfOk result (λ eyes. eyes ≡ map new_eye queues.now) }
    {
        let mut row = Vec::with_capacity(alloc, queues.len())?;
        for i in 0..queues.len() {
            let eye = senders[i].eye(&queues[i]);
            row.push_reserved(eye);
        }
        Ok(Eyes { row })
    }
}
