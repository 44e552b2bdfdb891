//! The bars of one kind, moment by moment.
ghost use Rattle.std.specs.Prelude.{◌≡◌, ◌<◌, ◌≤◌, ◌++◌, ℕ, length, vec_len, IfOk, OnOk};
ghost use Rattle.trace_bars.specs.Bars.{AreBars, Shows};
ghost use Rattle.trace_bars.specs.Sights.{Recording, IsSightsAt};
ghost use Rattle.trace_bars.specs.Tracks.{IsLayerAt, Turns, listed};

use crate::mark::{Bar, Kind, Mark, mark_of};
use crate::sight::Sight;
use crate::track::Track;
use affinity_mask::OutOfMemory;
use std::alloc::Global;

/// The bars that have ended, and what is seen of each thread now.
#[derive(Drop)]
pub(crate) struct Layer {
    pub(crate) tracks: Vec<Track>,
    pub(crate) bars: Vec<Bar>,
}

impl Layer {
    /// Nothing is seen yet of so many threads.
    pub(crate) fn new(alloc: Global, threads: usize, first: u64) -> Result<Layer, OutOfMemory>
        ensures layer { IfOk result (λ layer. (trace : Recording) (kind : Kind) (last : ℕ)
            → IsLayerAt (Shows trace kind) first last first layer.tracks.items layer.bars.items) }
        ensures threads { IfOk result (λ layer. vec_len layer.tracks ≡ threads) }
    {
        let mut tracks = Vec::new(alloc);
        for _thread in 0..threads {
            tracks.push(Track {
                mark: None,
                since: first,
            })?;
        }
        Ok(Layer {
            tracks,
            bars: Vec::new(alloc),
        })
    }

    /// Sees what holds of each thread from now on. Refused only where memory runs out.
    pub(crate) fn see(&mut self, kind: Kind, now: u64, sights: &[Sight]) -> Result<(), OutOfMemory>
        requires { length sights.now ≡ vec_len self.old.tracks }
        ensures on { OnOk result ((trace : Recording) (first last next : ℕ) → now < next → next ≤ last
            → ((x : ℕ) → now ≤ x → x < next → IsSightsAt trace x sights.now)
            → IsLayerAt (Shows trace kind) first last now self.old.tracks.items self.old.bars.items
            → IsLayerAt (Shows trace kind) first last next self.new.tracks.items self.new.bars.items) }
        ensures threads { OnOk result (vec_len self.new.tracks ≡ vec_len self.old.tracks) }
    {
        for t in 0..self.tracks.len() {
            self.turn(t, now, mark_of(kind, sights[t]))?;
        }
        Ok(())
    }

    /// Nothing is seen from now on. Refused only where memory runs out.
    pub(crate) fn end(&mut self, last: u64) -> Result<(), OutOfMemory>
        ensures { OnOk result ((trace : Recording) (kind : Kind) (first : ℕ)
            → IsLayerAt (Shows trace kind) first last last self.old.tracks.items self.old.bars.items
            → AreBars (Shows trace kind) (vec_len self.old.tracks) first last self.new.bars.items) }
    {
        for t in 0..self.tracks.len() {
            self.turn(t, last, None)?;
        }
        Ok(())
    }

    /// This is seen of a thread from now on.
    fn turn(&mut self, t: usize, now: u64, mark: Option<Mark>) -> Result<(), OutOfMemory>
        requires { t < vec_len self.old.tracks }
        ensures turns { OnOk result (Turns t now mark self.old.tracks.items self.old.bars.items
            self.new.tracks.items self.new.bars.items) }
        ensures threads { OnOk result (vec_len self.new.tracks ≡ vec_len self.old.tracks) }
    {
        let track = self.tracks[t];
        if mark == track.mark {
            return Ok(());
        }
        put(&mut self.bars, track.ended(t, now))?;
        self.tracks[t] = Track { mark, since: now };
        Ok(())
    }
}

/// Appends a bar, if there is one.
fn put(bars: &mut Vec<Bar>, bar: Option<Bar>) -> Result<(), OutOfMemory>
    ensures { OnOk result (bars.new.items ≡ bars.old.items ++ listed bar) }
{
    if let Some(bar) = bar {
        bars.push(bar)?;
    }
    Ok(())
}
