//! What is drawn: the tasks, the places of the axis, and the window.
ghost use Rattle.std.specs.Prelude.{◌≡◌, ◌<◌, ◌≤◌, true, slice_index, get_or};
ghost use Rattle.task_set.specs.TaskSet.{priorities};
ghost use Rattle.text_fields.specs.EventText.{name_of};
ghost use Rattle.schedule_picture.specs.Elements.{are_plain};
ghost use Rattle.schedule_picture.specs.Group.{extent_of, part_of, span_of};
ghost use Rattle.schedule_picture.specs.Listing.{touches};
ghost use Rattle.schedule_picture.specs.Track.{fresh_track};

use crate::span::Span;
use crate::track::Track;
use crate::window::Window;
use std::alloc::Global;
use task_set::TaskSet;

/// The tasks; the place on the axis of the state after each number of entries, and of the end of the last entry; and the
/// window.
#[derive(Clone, Copy)]
pub(crate) struct Sheet<'a> {
    pub(crate) alloc: Global,
    pub(crate) set: &'a TaskSet,
    pub(crate) places: &'a [u64],
    pub(crate) window: Window,
}

impl Sheet<'_> {
    /// The place of the state after n entries. Past the end it is 0.
    pub(crate) fn place(&self, n: u32) -> u64
        ensures { result ≡ slice_index self.now.places.now n }
    {
        self.places.get(n as usize).copied().unwrap_or(0)
    }

    /// The part of a span within the window, if it has a length.
    pub(crate) fn part(&self, span: Span) -> Option<(u64, u64)>
        ensures { result ≡ part_of self.now.places.now self.now.window span }
    {
        let begin = self.place(span.from).max(self.window.from);
        let end = self.place(span.until).min(self.window.to);
        if begin < end {
            Some((begin, end))
        } else {
            None
        }
    }

    /// Where a span begins and ends on the axis, if it has a length.
    pub(crate) fn extent(&self, span: Span) -> Option<(u64, u64)>
        ensures { result ≡ extent_of self.now.places.now span }
    {
        let begin = self.place(span.from);
        let end = self.place(span.until);
        if begin < end {
            Some((begin, end))
        } else {
            None
        }
    }

    /// The number of the entry that would follow the last one.
    pub(crate) fn end(&self) -> u32 {
        self.places.len().saturating_sub(1).min(100_000) as u32
    }

    /// Whether the window shows the place of the state after n entries.
    pub(crate) fn shows(&self, n: u32) -> bool {
        self.window.from <= self.place(n) && self.place(n) <= self.window.to
    }

    /// Whether a span touches the window, with a length or without.
    pub(crate) fn touches(&self, span: Span) -> bool
        ensures { result ≡ touches self.now.places.now self.now.window span }
    {
        self.place(span.from) <= self.window.to && self.window.from <= self.place(span.until)
    }

    /// How long the window is, and at least 1.
    pub(crate) fn span(&self) -> u64
        ensures at_least_one { 1 ≤ result }
        ensures value { result ≡ span_of self.now.window }
    {
        self.window.to.saturating_sub(self.window.from).max(1)
    }

    /// The priority of a task. Of a number that is no task it is 0.
    pub(crate) fn priority(&self, t: u32) -> u32
        ensures { result ≡ slice_index (priorities self.now.set.now) t }
    {
        if t < self.set.len() {
            self.set.priority(t)
        } else {
            0
        }
    }

    /// The name of a task. Of a number that is no task it is empty.
    pub(crate) fn name(&self, t: u32) -> &str
        ensures value { result.now ≡ name_of self.now.set.now t }
        ensures plain { are_plain result.now ≡ true }
    {
        if t < self.set.len() {
            self.set.name(t)
        } else {
            ""
        }
    }
}

/// The spans of a track of a list. Past the end there are none.
pub(crate) fn spans_at(tracks: &[Track], x: usize) -> &[Span]
    ensures { result.now ≡ (get_or tracks.now x fresh_track).spans }
{
    if x < tracks.len() {
        tracks[x].spans()
    } else {
        &[]
    }
}
