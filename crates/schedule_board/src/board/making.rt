//! What makes a board.
ghost use Rattle.std.specs.Prelude.{◌≡◌, ◌≤◌, true, [], length, All, IfOk};
ghost use Rattle.left_right.specs.Sides.{view};
ghost use Rattle.schedule_board.specs.Views.{KnowsShown};
ghost use Rattle.schedule_board.specs.Boards.{board_shown, board_of, published, IsNewObserver};

use super::publishing::show;
use super::{Observer, Publisher};
use crate::chronicle::Chronicle;
use crate::picture::Picture;
use crate::rule::{Desk, Tells};
use crate::shown::Shown;
use affinity_mask::OutOfMemory;
use std::alloc::Global;
use std::sync::Wait;
use task_set::TaskSet;

/// A board on which nothing is published, and so many observers. It keeps the handle, and takes the memory of all later
/// calls.
pub fn make_board<R: Wait + Drop>(
    rt: R,
    alloc: Global,
    set: &TaskSet,
    observers: u32,
) -> Result<(Publisher<R>, Vec<Observer>), OutOfMemory>
    requires { (1 ≤ observers) × (observers ≤ 8) }
    ensures publisher { IfOk result
        (λ made. (published made.0 ≡ []) × ((board_of made.0).processors ≡ set.now.processors)) }
    ensures observers { IfOk result
        (λ made. (length made.1.items ≡ observers)
        × All (IsNewObserver (board_of made.0)) made.1.items) }
{
    let chronicle = Chronicle::new();
    let first = opening(&chronicle, set.processors());
    let mut desk = open_desk(&rt, alloc, first, observers as usize)?;
    match make_observers(alloc, &mut desk, observers) {
        Ok(all) => Ok((
            Publisher {
                rt,
                desk,
                chronicle,
            },
            all,
        )),
        Err(refused) => {
            let _last = desk.take(&rt);
            Err(refused)
        }
    }
}

/// What is shown before anything is published.
fn opening(chronicle: &Chronicle, processors: u8) -> Shown
    requires { chronicle.now.reached.log ≡ [] }
    ensures reached { result.reached ≡ chronicle.now.reached }
    ensures processors { result.picture.occupants.processors ≡ processors }
{
    Shown {
        picture: Picture::opening(processors),
        reached: chronicle.reached.again(),
    }
}

/// The two copies, which show this at first, with room for all later operations.
fn open_desk<R: Wait>(
    rt: &R,
    alloc: Global,
    first: Shown,
    observers: usize,
) -> Result<Desk, OutOfMemory>
    requires { (1 ≤ observers) × (observers ≤ 8) }
    ensures shown { IfOk result (λ desk. desk.desk.shown.value ≡ first) }
    ensures knows { IfOk result (λ desk. KnowsShown first (view desk.desk.place)) }
{
    let second = first.again();
    let one = first.again();
    let other = first.again();
    let Ok(mut desk) = Desk::new(alloc, first, second, observers) else {
        return Err(OutOfMemory);
    };
    // Two at once, so that no later call takes memory for its one.
    if desk.append(one).is_err() || desk.append(other).is_err() {
        let _last = desk.take(rt);
        return Err(OutOfMemory);
    }
    let (desk, _shown) = show(desk, rt);
    Ok(desk)
}

/// An observer that knows nothing but its board.
fn make_observer(desk: &mut Desk) -> Result<Observer, OutOfMemory>
    requires knows { KnowsShown desk.old.desk.shown.value (view desk.old.desk.place) }
    requires empty { desk.old.desk.shown.value.reached.log ≡ [] }
    ensures desk { (desk.new.desk.shown ≡ desk.old.desk.shown)
        × (view desk.new.desk.place ≡ view desk.old.desk.place) }
    ensures made { IfOk result (IsNewObserver (board_shown desk.old.desk.shown.value)) }
{
    let shown = desk.published();
    let told = shown.reached.again();
    let told_count = shown.picture.count();
    let processors = shown.picture.processors();
    let Ok(mut place) = desk.factory().reader() else {
        return Err(OutOfMemory);
    };
    place.learn::<Tells>(desk.tell::<Tells>());
    Ok(Observer {
        place,
        processors,
        told,
        told_count,
    })
}

/// So many of them.
fn make_observers(
    alloc: Global,
    desk: &mut Desk,
    observers: u32,
) -> Result<Vec<Observer>, OutOfMemory>
    requires knows { KnowsShown desk.old.desk.shown.value (view desk.old.desk.place) }
    requires empty { desk.old.desk.shown.value.reached.log ≡ [] }
    ensures desk { desk.new.desk.shown ≡ desk.old.desk.shown }
    ensures made { IfOk result (λ all. (length all.items ≡ observers)
        × All (IsNewObserver (board_shown desk.old.desk.shown.value)) all.items) }
{
    let mut all = Vec::new(alloc);
    for _ in 0..observers {
        let observer = make_observer(desk)?;
        if all.push(observer).is_err() {
            return Err(OutOfMemory);
        }
    }
    Ok(all)
}
