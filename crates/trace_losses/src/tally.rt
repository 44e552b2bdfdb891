//! The numbers of one task, which go on by stretches of equal moments.
ghost use Rattle.std.specs.Prelude.{◌≡◌, ◌+◌, ◌<◌, ◌^◌, List, [], ◌++◌, replicate, if◌then◌else◌};
ghost use Rattle.trace_losses.specs.Moments.{IsTally, AreOver, losses};
ghost use Rattle.trace_losses.specs.Tally.{IsWithin, tally_after, longer, over, ended_after};
ghost use Rattle.trace_losses.specs.declared.seen.Seen.{Seen};

use crate::seen::Seen;

/// Moments that follow each other.
#[derive(Clone, Copy)]
pub struct Stretch {
    pub first: u64,
    pub count: u64,
}

/// How many moments there were, and at how many the task was ready, ready and running, and lost; the stretch of lost moments up
/// to the last one, and the longest stretch of them.
#[derive(Clone, Copy)]
pub struct Tally {
    pub moments: u64,
    pub ready: u64,
    pub served: u64,
    pub lost: u64,
    pub current: u64,

    /// Of the moments before that stretch, how many stand in stretches of more than 50 lost ones.
    pub ended: u64,
    pub longest: Stretch,
}

impl Stretch {
    /// The longer one of two, and this one where they are as long.
    fn longer(self, other: Stretch) -> Stretch
        ensures { result ≡ longer self other }
    {
        if self.count < other.count {
            other
        } else {
            self
        }
    }
}

impl Tally {
    /// The numbers of no moment.
    pub fn new() -> Tally
        ensures tally { IsTally [] result }
        ensures within { IsWithin result }
        ensures moments { result.moments ≡ 0 }
    {
        Tally {
            moments: 0,
            ready: 0,
            served: 0,
            lost: 0,
            current: 0,
            ended: 0,
            longest: Stretch { first: 0, count: 0 },
        }
    }

    /// The numbers after so many further moments, at each of which the same holds of the task.
    pub fn after(self, units: u64, seen: Seen) -> Tally
        requires some { 0 < units }
        requires room { self.moments + units < 2 ^ 64 }
        requires within { IsWithin self }
        ensures tally { (moments : List Seen) → IsTally moments self
            → IsTally (moments ++ replicate units seen) result }
        ensures within { IsWithin result }
        ensures step { result ≡ tally_after self units seen }
    {
        let moments = self.moments + units;
        let is_lost = seen.is_lost();
        let current = more_or_none(self.current, units, is_lost);
        Tally {
            moments,
            ready: more(self.ready, units, seen.ready),
            served: more(self.served, units, seen.is_served()),
            lost: more(self.lost, units, is_lost),
            current,
            ended: ended_after(self.ended, self.current, is_lost),
            longest: self.longest.longer(Stretch {
                first: moments - current,
                count: current,
            }),
        }
    }

    /// How many moments stand in a stretch of more than 50 lost ones that follow each other.
    pub fn over(self) -> u64
        requires within { IsWithin self }
        ensures { (moments : List Seen) → IsTally moments self → AreOver (losses moments) result }
    {
        self.ended + over(self.current)
    }
}

/// The most moments of a stretch that are not over.
const MOST_SHORT: u64 = 50;

/// How many moments of a stretch of so many are over: all of more than 50, or none.
fn over(count: u64) -> u64
    ensures { result ≡ over count }
{
    if count > MOST_SHORT { count } else { 0 }
}

/// How many moments over there are up to the last moment that is not lost, once the stretch of so many has gone on or ended.
fn ended_after(ended: u64, current: u64, is_lost: bool) -> u64
    requires { ended + current < 2 ^ 64 }
    ensures { result ≡ ended_after is_lost ended current }
{
    if is_lost {
        ended
    } else {
        ended + over(current)
    }
}

/// So many more, where they count.
fn more(count: u64, units: u64, counts: bool) -> u64
    requires { count + units < 2 ^ 64 }
    ensures { result ≡ count + (if counts then units else 0) }
{
    if counts { count + units } else { count }
}

/// So many more, where they count, and none at all where they do not.
fn more_or_none(count: u64, units: u64, counts: bool) -> u64
    requires { count + units < 2 ^ 64 }
    ensures { result ≡ (if counts then count + units else 0) }
{
    if counts { count + units } else { 0 }
}
