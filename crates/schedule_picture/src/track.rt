//! A track: the spans of one processor or of one task, entry by entry.
ghost use Rattle.std.specs.Prelude.{◌≡◌, OnOk};
ghost use Rattle.schedule_picture.specs.Track.{fresh_track, spans_until, seen_task, Sees};

use crate::span::{Seen, Span};
use affinity_mask::OutOfMemory;
use std::alloc::Global;
use std::marker::Model;

/// The spans that have ended, and what is seen now and since which entry.
#[derive(Drop)]
pub struct Track {
    current: Option<Seen>,
    since: u32,
    spans: Vec<Span>,
}

impl Model for Track {
    ghost use Rattle.schedule_picture.specs.Track.{TrackData};

    ghost Value = { TrackData };

    ghost use Rattle.schedule_picture.specs.TrackView.{track_view};

    ghost view = { track_view };
}

impl Track {
    /// Before the first entry nothing is seen.
    pub(crate) fn new(alloc: Global) -> Track
        ensures { result ≡ fresh_track }
    {
        Track {
            current: None,
            since: 0,
            spans: Vec::new(alloc),
        }
    }

    /// Follows entry n, after which this is seen. Refused only where memory runs out.
    pub(crate) fn see(&mut self, n: u32, seen: Option<Seen>) -> Result<(), OutOfMemory>
        ensures { OnOk result (Sees n seen self.old self.new) }
    {
        if seen == self.current {
            return Ok(());
        }
        self.close(n)?;
        self.current = seen;
        self.since = n;
        Ok(())
    }

    /// Ends the span that has not ended, if there is one, before this entry. Refused only where memory runs out.
    pub(crate) fn close(&mut self, until: u32) -> Result<(), OutOfMemory>
        ensures { OnOk result (self.new ≡ record self.old { spans = spans_until self.old until }) }
    {
        if let Some(what) = self.current {
            let from = self.since;
            self.spans.push(Span { what, from, until })?;
        }
        Ok(())
    }

    /// The task that is seen now, if there is one.
    pub(crate) fn task(&self) -> Option<u32>
        ensures { result ≡ seen_task self.now.current }
    {
        match self.current {
            Some(Seen::Task(t)) => Some(t),
            _ => None,
        }
    }

    /// The spans that have ended, in order.
    pub fn spans(&self) -> &[Span]
        ensures { result.now ≡ self.now.spans }
    {
        &self.spans
    }
}
