//! What the threads of a replay share.
use context_slots::Slots;
use event_history::Board;
use order_queues::Queue;
use std::alloc::Global;
use std::sync::atomic::AtomicBool;
use trace_reader::Posted;

/// What the threads of a replay share. There is a flag for each worker: where its start is refused, the caller raises it.
/// Memory is taken for the joins, before the first start, and for what is published.
#[derive(Drop)]
pub struct Shared<'a, 'b, R, G> {
    pub rt: &'a R,
    pub alloc: Global,
    pub gate: &'a G,
    pub board: &'a Board,
    pub queues: &'a [Queue],
    pub slots: &'b Slots,
    pub events: &'a [Posted],
    pub refused: &'a [AtomicBool],
}
