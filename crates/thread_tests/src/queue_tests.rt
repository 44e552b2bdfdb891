//! Calls with answers worked out by hand from what a queue is.
ghost use Rattle.std.specs.Prelude.{◌≡◌, []};

use crate::ends::{End, is_stop, new_queue};
use crate::same::{same, same_at};
use order_queues::{QUEUE_ROOM, Queue, Receiver, Sender, settle};
use std::alloc::Global;
use std::process::Abort;
use std::sync::Wait;
use std::thread;
use std::thread::Threads;
use std::time::{Clock, Duration, Instant};
use task_set::Order;

/// The orders that one thread sends to the other, `Stop` included.
const RELAYED: u32 = 100_000;

/// The first order of the tests that send orders by hand.
const FIRST_TAKE: Order = Order::Take { task: 0, number: 0 };

/// How long a receiver sleeps whom nobody wakes, in seconds. One that is woken is back long before.
const LONGEST_SLEEP: u64 = 60;

#[test]
fn queue_by_calls(rt: HostRuntime) {
    let (queue, mut end, mut receiver) = new_queue(&rt, rt.alloc());
    fill(&rt, &queue, &mut end, &mut receiver);
    empty(&rt, &queue, &mut end, &mut receiver);
    stop(&rt, &queue, &mut end, &mut receiver);
    settles(&rt, queue, end, receiver, 258);
}

/// The next order that is received is this, or there is none.
fn receives<R: Wait + Abort>(rt: &R, queue: &Queue, receiver: &mut Receiver, order: Option<Order>)
    requires receiver { receiver.old.queue ≡ queue.now }
    ensures receiver { receiver.new.queue ≡ queue.now }
{
    same(rt, receiver.next(rt, queue), order);
}

/// How many runs of one unit are sent until one is refused, 256 at most.
fn send_runs<R: Wait + Abort>(rt: &R, queue: &Queue, end: &mut End) -> u64
    requires queue { end.old ≡ queue.now }
    ensures queue { end.new ≡ queue.now }
{
    for count in 0..256 {
        if let Err(_) = end.send(rt, queue, Order::Run(1)) {
            return count;
        }
    }
    256
}

/// How many runs of one unit are received until something else is, 256 at most.
fn receive_runs<R: Wait>(rt: &R, queue: &Queue, receiver: &mut Receiver) -> u64
    requires receiver { receiver.old.queue ≡ queue.now }
    ensures receiver { receiver.new.queue ≡ queue.now }
{
    for count in 0..256 {
        if receiver.next(rt, queue) != Some(Order::Run(1)) {
            return count;
        }
    }
    256
}

/// Fills a new queue with a take and its runs. It is full by its look, and still is after its ends met.
fn fill<R: Wait + Abort>(rt: &R, queue: &Queue, end: &mut End, receiver: &mut Receiver)
    requires queue { end.old ≡ queue.now }
    requires receiver { receiver.old.queue ≡ queue.now }
    ensures queue { end.new ≡ queue.now }
    ensures receiver { receiver.new.queue ≡ queue.now }
{
    same(rt, QUEUE_ROOM, 256);
    receives(rt, queue, receiver, None);
    same(rt, end.send(rt, queue, FIRST_TAKE), Ok(()));
    same(rt, send_runs(rt, queue, end), 255);
    end.meet(queue, receiver);
    same(rt, end.send(rt, queue, Order::Run(1)), Err(Order::Run(1)));
}

/// Receives the take and its runs, after which the queue is empty.
fn empty<R: Wait + Abort>(rt: &R, queue: &Queue, end: &mut End, receiver: &mut Receiver)
    requires queue { end.old ≡ queue.now }
    requires receiver { receiver.old.queue ≡ queue.now }
    ensures queue { end.new ≡ queue.now }
    ensures receiver { receiver.new.queue ≡ queue.now }
{
    receives(rt, queue, receiver, Some(FIRST_TAKE));
    same(rt, receive_runs(rt, queue, receiver), 255);
    end.meet(queue, receiver);
    receives(rt, queue, receiver, None);
}

/// Sends the last two orders, and receives them.
fn stop<R: Wait + Abort>(rt: &R, queue: &Queue, end: &mut End, receiver: &mut Receiver)
    requires queue { end.old ≡ queue.now }
    requires receiver { receiver.old.queue ≡ queue.now }
    ensures queue { end.new ≡ queue.now }
    ensures receiver { receiver.new.queue ≡ queue.now }
{
    same(rt, end.send(rt, queue, Order::Release(0)), Ok(()));
    same(rt, end.send(rt, queue, Order::Stop), Ok(()));
    receives(rt, queue, receiver, Some(Order::Release(0)));
    receives(rt, queue, receiver, Some(Order::Stop));
}

/// Ends the queue, of which so many orders were sent and received.
fn settles(rt: &impl Abort, queue: Queue, end: End, receiver: Receiver, count: u64)
    requires queue { end ≡ queue }
    requires receiver { receiver.queue ≡ queue }
{
    let settled = settle(queue, end.into_sender(), receiver);
    same(rt, [settled.sent, settled.received], [count, count]);
}

/// Six orders that are sent by one call.
const SIX: [Order; 6] = [
    FIRST_TAKE,
    Order::Run(7),
    Order::Run(8),
    Order::Run(9),
    Order::Release(0),
    Order::Stop,
];

#[test]
fn many_at_once(rt: HostRuntime) {
    let (queue, mut sender, mut receiver) = Queue::new(rt.alloc(), 1).expect(&rt, "memory");
    send_six(&rt, &queue, &mut sender);
    receive_six(&rt, &queue, &mut receiver);
}

/// Sends the six orders.
fn send_six<R: Wait + Abort>(rt: &R, queue: &Queue, sender: &mut Sender)
    requires queue { sender.old.queue ≡ queue.now }
    requires one_task { queue.now.tasks ≡ 1 }
    requires nothing_sent { sender.old.sent ≡ [] }
{
    let mut eye = sender.eye(queue);
    same(rt, sender.send_all(rt, queue, &mut eye, &SIX), 6);
}

/// Receives the six orders, and finds no more.
fn receive_six<R: Wait + Abort>(rt: &R, queue: &Queue, receiver: &mut Receiver)
    requires receiver { receiver.old.queue ≡ queue.now }
{
    for order in SIX {
        receives(rt, queue, receiver, Some(order));
    }
    receives(rt, queue, receiver, None);
}

#[test]
fn two_threads_relay(rt: HostRuntime) {
    let (queue, end, receiver) = new_queue(&rt, rt.alloc());
    let list = relayed(&rt, rt.alloc(), queue, end, receiver);
    check_relayed(&rt, &list);
}

/// The orders that one thread receives from the other by a new queue.
fn relayed<R: Threads + Wait + Abort + Sync>(
    rt: &R,
    alloc: Global,
    queue: Queue,
    end: End,
    receiver: Receiver,
) -> Vec<Order>
    requires queue { end ≡ queue }
    requires receiver { receiver.queue ≡ queue }
{
    let list = Vec::with_capacity(alloc, RELAYED as usize).expect(rt, "memory");
    let (end, (receiver, list)) = relay(rt, &queue, end, receiver, list);
    settles(rt, queue, end, receiver, 100_000);
    list
}

/// These are all orders that are relayed, in their order.
fn check_relayed(rt: &impl Abort, list: &[Order]) {
    assert!(rt; list.len() == 100_000);
    for (i, order) in list.iter().enumerate() {
        same_at(rt, *order, order_at(i as u32), &i);
    }
}

/// The order at a place: stints of three orders, each with one run, whose units change from stint to stint, and `Stop`.
fn order_at(place: u32) -> Order {
    if place == RELAYED - 1 {
        return Order::Stop;
    }
    let number = place / 3;
    match place % 3 {
        0 => Order::Take { task: 0, number },
        1 => Order::Run(number % 7 + 1),
        _ => Order::Release(0),
    }
}

fn relay<R: Threads + Wait + Abort + Sync>(
    rt: &R,
    queue: &Queue,
    end: End,
    receiver: Receiver,
    list: Vec<Order>,
) -> (End, (Receiver, Vec<Order>))
    requires queue { end ≡ queue.now }
    requires receiver { receiver.queue ≡ queue.now }
    ensures queue { result.0 ≡ queue.now }
    ensures receiver { result.1.0.queue ≡ queue.now }
{
    thread::join(
        rt,
        move ||
            requires { end ≡ queue.now }
            ensures { result ≡ queue.entry.now }
        { send_all(rt, queue, end) },
        move ||
            requires { receiver.queue ≡ queue.now }
            ensures { result.0.queue ≡ queue.entry.now }
        { receive_all(rt, queue, receiver, list) },
    )
}

fn send_all<R: Wait + Abort>(rt: &R, queue: &Queue, mut end: End) -> End
    requires queue { end ≡ queue.now }
    ensures queue { result ≡ queue.now }
{
    for place in 0..RELAYED {
        end.send_late(rt, queue, order_at(place));
    }
    end
}

// Receives until Stop.
fn receive_all<R: Wait + Abort>(
    rt: &R,
    queue: &Queue,
    mut receiver: Receiver,
    mut list: Vec<Order>,
) -> (Receiver, Vec<Order>)
    requires receiver { receiver.queue ≡ queue.now }
    ensures receiver { result.0.queue ≡ queue.now }
{
    for _ in rt.forever() {
        match receiver.next(rt, queue) {
            Some(order) => {
                assert!(rt; list.push(order).is_ok());
                if is_stop(order) {
                    break;
                }
            }
            None => thread::yield_now(),
        }
    }
    (receiver, list)
}

#[test]
fn receiver_is_woken(rt: HostRuntime) {
    let (queue, end, receiver) = new_queue(&rt, rt.alloc());
    let began = Instant::now(&rt).expect(&rt, "a time");
    let (end, (receiver, order)) = stop_sleeper(&rt, &queue, end, receiver);
    let slept = began.elapsed(&rt).expect(&rt, "a time");
    same(&rt, order, Some(Order::Stop));
    assert!(rt; slept < Duration::from_secs(LONGEST_SLEEP / 2));
    settles(&rt, queue, end, receiver, 1);
}

// One thread sleeps until it is woken, and then receives; the other sends `Stop` a while after, and wakes it.
fn stop_sleeper<R: Threads + Wait + Clock + Abort + Sync>(
    rt: &R,
    queue: &Queue,
    end: End,
    receiver: Receiver,
) -> (End, (Receiver, Option<Order>))
    requires queue { end ≡ queue.now }
    requires receiver { receiver.queue ≡ queue.now }
    ensures queue { result.0 ≡ queue.now }
    ensures receiver { result.1.0.queue ≡ queue.now }
{
    thread::join(
        rt,
        move ||
            requires { end ≡ queue.now }
            ensures { result ≡ queue.entry.now }
        { send_stop(rt, queue, end) },
        move ||
            requires { receiver.queue ≡ queue.now }
            ensures { result.0.queue ≡ queue.entry.now }
        { receive_woken(rt, queue, receiver) },
    )
}

fn send_stop<R: Wait + Clock + Abort>(rt: &R, queue: &Queue, mut end: End) -> End
    requires queue { end ≡ queue.now }
    ensures queue { result ≡ queue.now }
{
    thread::sleep(rt, Duration::from_millis(50));
    end.send_late(rt, queue, Order::Stop);
    queue.wake();
    end
}

fn receive_woken<R: Wait>(
    rt: &R,
    queue: &Queue,
    mut receiver: Receiver,
) -> (Receiver, Option<Order>)
    requires receiver { receiver.queue ≡ queue.now }
    ensures receiver { result.0.queue ≡ queue.now }
{
    for _ in 0..100 {
        let order = receiver.next(rt, queue);
        if order.is_some() {
            return (receiver, order);
        }
        receiver.wait(rt, queue, Duration::from_secs(LONGEST_SLEEP));
    }
    (receiver, None)
}
