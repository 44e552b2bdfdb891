//! The gate of a case: it counts its calls, and holds threads until others are as far as the case says.
use processor_seat::Gate;
use std::alloc::{AllocError, Global};
use std::sync::atomic::{AtomicU64, Ordering};
use std::thread;

/// So many streams, processors or observers have counts of their own.
const THREADS: usize = 64;

/// The gate has so many points.
const POINTS: usize = 4;

/// How often a gate looks before it lets a thread go on all the same.
const MOST_LOOKS: u32 = 20_000_000;

/// Where the gate is called: the number of a stream, a processor or an observer, and the point.
#[derive(Clone, Copy, PartialEq, Eq)]
pub struct Place {
    pub who: u32,
    pub point: u32,
}

/// A call of the gate, counted from 1 at its place.
#[derive(Clone, Copy, PartialEq, Eq)]
pub struct Moment {
    pub place: Place,
    pub call: u64,
}

/// The thread that is at the first moment waits until the second one has come.
#[derive(Clone, Copy)]
pub struct Hold {
    pub at: Moment,
    pub until: Moment,
}

/// The gate of a case.
#[derive(Drop)]
pub struct CaseGate<'a> {
    holds: &'a [Hold],
    /// How long it takes, where it takes its time.
    pace: Option<u64>,
    calls: Vec<AtomicU64>,
    /// How many holds ended before what they wait for came.
    late: AtomicU64,
}

impl<'a> CaseGate<'a> {
    pub fn new(
        alloc: Global,
        holds: &'a [Hold],
        pace: Option<u64>,
    ) -> Result<CaseGate<'a>, AllocError> {
        Ok(CaseGate {
            holds,
            pace,
            calls: new_counts(alloc)?,
            late: AtomicU64::new(0),
        })
    }

    /// It was not called yet.
    pub fn reset(&self) {
        for count in &self.calls {
            count.store(0, Ordering::SeqCst);
        }
        self.late.store(0, Ordering::SeqCst);
    }

    /// How often it was called there.
    pub fn count(&self, place: Place) -> u64 {
        match self.calls.get(index_of(place)) {
            Some(count) => count.load(Ordering::SeqCst),
            None => 0,
        }
    }

    /// How many holds ended before what they wait for came.
    pub fn late(&self) -> u64 {
        self.late.load(Ordering::SeqCst)
    }

    /// Counts a call.
    fn enter(&self, place: Place) -> Moment {
        let before = match self.calls.get(index_of(place)) {
            Some(count) => count.fetch_add(1, Ordering::SeqCst),
            None => 0,
        };
        let call = before.wrapping_add(1);
        Moment { place, call }
    }

    /// Takes its time, where it has a pace: at each call another one.
    fn dawdle(&self, call: u64) {
        let Some(pace) = self.pace else { return };
        let looks = pace.wrapping_mul(7).wrapping_add(call.wrapping_mul(13));
        for _ in 0..looks % 1000 {
            let _late = self.late();
        }
    }

    /// Waits until a moment has come, or for so many looks.
    fn wait_for(&self, moment: Moment) {
        for _ in 0..MOST_LOOKS {
            if self.count(moment.place) >= moment.call {
                return;
            }
            thread::yield_now();
        }
        self.late.fetch_add(1, Ordering::SeqCst);
    }
}

impl<'a> Gate for CaseGate<'a> {
    fn at(&self, who: u32, point: u32) {
        let now = self.enter(Place { who, point });
        self.dawdle(now.call);
        for hold in self.holds {
            if hold.at == now {
                self.wait_for(hold.until);
            }
        }
    }
}

/// A count for each place, from 0.
fn new_counts(alloc: Global) -> Result<Vec<AtomicU64>, AllocError> {
    let mut counts = Vec::new(alloc);
    for _ in 0..THREADS * POINTS {
        counts.push(AtomicU64::new(0))?;
    }
    Ok(counts)
}

/// Where the count of a place stands.
fn index_of(place: Place) -> usize {
    let first = (place.who as usize).wrapping_mul(POINTS);
    first.wrapping_add(place.point as usize)
}
