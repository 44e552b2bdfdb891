//! The bars of a part of a trace.
ghost use Rattle.std.specs.Prelude.{◌≡◌, ◌<◌, ◌≤◌, ℕ, List, length, vec_len, IfOk, OnOk};
ghost use Rattle.strong_apa.specs.State.{start_of};
ghost use Rattle.trace_losses.specs.Walk.{IsTrail, IsWalkAt};
ghost use Rattle.trace_passages.specs.Passages.{ArePassages, span_of};
ghost use Rattle.trace_bars.specs.Parts.{AreBarsOf, AreLayersAt, HasTracks, clipped, trace_of};
ghost use Rattle.trace_bars.specs.Bars.{AreBars, Shows};
ghost use Rattle.trace_bars.specs.Tracks.{IsLayerAt};
ghost use Rattle.trace_bars.specs.declared.mark.Kind.{Kind};
ghost use Rattle.trace_bars.specs.Sights.{Recording, AreSightsBy, IsSightsAt};
ghost use Rattle.trace_bars.specs.declared.sight.Sight.{Sight};

use crate::layer::Layer;
use crate::mark::{Bar, Kind};
use crate::sight::Sight;
use crate::walk::Walk;
use affinity_mask::OutOfMemory;
use std::alloc::Global;
use task_set::TaskSet;
use trace_losses::{Trail, trail_of};
use trace_passages::Passage;

/// The moments from one up to another.
#[derive(Clone, Copy, Debug, PartialEq, Eq)]
pub struct Part {
    pub from: u64,
    pub to: u64,
}

/// The bars of the lanes of the trace, of those of strong scheduling, and of the rows, each in the order in which they end.
#[derive(Drop)]
pub struct Bars {
    pub trace: Vec<Bar>,
    pub strong: Vec<Bar>,
    pub rows: Vec<Bar>,
}

/// The bars of a part of a trace of so many threads. Refused only where memory runs out.
pub fn bars_of(
    alloc: Global,
    set: &TaskSet,
    threads: u32,
    passages: &[Passage],
    part: Part,
) -> Result<Bars, OutOfMemory>
    requires passages { ArePassages (length set.now.tasks) threads passages.now }
    requires part { part.from ≤ part.to }
    requires within { part.to ≤ span_of passages.now }
    ensures { IfOk result (AreBarsOf (trace_of set.now threads passages.now) part) }
{
    let _valid = set.len();
    let trail = trail_of(alloc, threads, passages)?;
    let layers = layers_of(alloc, set, &trail, passages, part)?;
    let bars = bars_in(layers, part)?;
    Ok(bars)
}

/// What is seen in a part of a trace, where this is its trail.
fn layers_of(
    alloc: Global,
    set: &TaskSet,
    trail: &Trail,
    passages: &[Passage],
    part: Part,
) -> Result<Layers, OutOfMemory>
    requires passages { ArePassages (length set.now.tasks) (vec_len trail.now.first.processors)
        passages.now }
    requires trail { IsTrail passages.now (vec_len trail.now.first.processors)
        trail.now.first.processors.items trail.now.formers.items }
    requires part { part.from ≤ part.to }
    requires within { part.to ≤ span_of passages.now }
    ensures layers { IfOk result (AreLayersAt
        (trace_of set.now (vec_len trail.now.first.processors) passages.now) part part.to) }
    ensures tracks { IfOk result (HasTracks (vec_len trail.now.first.processors)) }
{
    let _valid = set.len();
    let mut layers = Layers::new(alloc, trail.first.processors.len(), part.from)?;
    let mut walk = Walk::new(alloc, set, trail)?;
    fill(set, trail, &mut walk, &mut layers, passages, part)?;
    Ok(layers)
}

/// Sees what holds from each passage to the next one.
fn fill(
    set: &TaskSet,
    trail: &Trail,
    walk: &mut Walk,
    layers: &mut Layers,
    passages: &[Passage],
    part: Part,
) -> Result<(), OutOfMemory>
    requires passages { ArePassages (length set.now.tasks) (vec_len trail.now.first.processors)
        passages.now }
    requires trail { IsTrail passages.now (vec_len trail.now.first.processors)
        trail.now.first.processors.items trail.now.formers.items }
    requires walk { IsWalkAt set.now passages.now (vec_len trail.now.first.processors) 0
        walk.old.core walk.old.runners.processors.items }
    requires links { walk.old.core.links ≡ start_of set.now }
    requires sights { vec_len walk.old.sights ≡ vec_len trail.now.first.processors }
    requires part { part.from ≤ part.to }
    requires within { part.to ≤ span_of passages.now }
    requires tracks { HasTracks (vec_len trail.now.first.processors) layers.old }
    requires layers { AreLayersAt
        (trace_of set.now (vec_len trail.now.first.processors) passages.now) part part.from
        layers.old }
    ensures layers { OnOk result (AreLayersAt
        (trace_of set.now (vec_len trail.now.first.processors) passages.now) part part.to
        layers.new) }
    ensures tracks { OnOk result (HasTracks (vec_len trail.now.first.processors) layers.new) }
{
    let formers = trail.formers.as_slice();
    for i in 1..passages.len() {
        walk.step(passages[i - 1], formers[passages.len() - i]);
        let now = clipped(part, passages[i - 1].moment);
        let next = clipped(part, passages[i].moment);
        advance(walk, layers, now, next)?;
    }
    Ok(())
}

/// The moment of a part that is nearest to a moment.
fn clipped(part: Part, moment: u64) -> u64
    ensures { result ≡ clipped part moment }
{
    part.from.max(part.to.min(moment))
}

/// Sees what holds from one moment up to another one.
fn advance(walk: &mut Walk, layers: &mut Layers, now: u64, next: u64) -> Result<(), OutOfMemory>
    requires order { now ≤ next }
    requires sights { vec_len walk.old.sights ≡ vec_len walk.old.runners.processors }
    requires tracks { HasTracks (vec_len walk.old.sights) layers.old }
    ensures on { OnOk result ((trace : Recording) (part : Part) → next ≤ part.to
        → ((sights : List Sight) → length sights ≡ vec_len walk.old.sights
        → AreSightsBy walk.old.core.links walk.old.runners.processors.items
        (vec_len walk.old.sights) sights → (x : ℕ) → now ≤ x → x < next → IsSightsAt trace x sights)
        → AreLayersAt trace part now layers.old → AreLayersAt trace part next layers.new) }
    ensures tracks { OnOk result (HasTracks (vec_len walk.old.sights) layers.new) }
    ensures all { vec_len walk.new.sights ≡ vec_len walk.old.sights }
    ensures core { walk.new.core ≡ walk.old.core }
    ensures runners { walk.new.runners ≡ walk.old.runners }
{
    if now < next {
        walk.look();
        layers.see(now, &walk.sights)?;
    }
    Ok(())
}

/// The three layers of a picture.
#[derive(Drop)]
pub(crate) struct Layers {
    pub(crate) trace: Layer,
    pub(crate) strong: Layer,
    pub(crate) rows: Layer,
}

impl Layers {
    /// Nothing is seen yet of so many threads.
    fn new(alloc: Global, threads: usize, first: u64) -> Result<Layers, OutOfMemory>
        ensures layers { IfOk result (λ layers. (trace : Recording) (part : Part) → part.from ≡ first
            → AreLayersAt trace part first layers) }
        ensures tracks { IfOk result (HasTracks threads) }
    {
        let trace = Layer::new(alloc, threads, first)?;
        let strong = Layer::new(alloc, threads, first)?;
        let rows = Layer::new(alloc, threads, first)?;
        Ok(Layers {
            trace,
            strong,
            rows,
        })
    }

    /// Sees what holds of each thread from now on.
    fn see(&mut self, now: u64, sights: &[Sight]) -> Result<(), OutOfMemory>
        requires { HasTracks (length sights.now) self.old }
        ensures on { OnOk result ((trace : Recording) (part : Part) (next : ℕ) → now < next
            → next ≤ part.to
            → ((x : ℕ) → now ≤ x → x < next → IsSightsAt trace x sights.now)
            → AreLayersAt trace part now self.old → AreLayersAt trace part next self.new) }
        ensures tracks { OnOk result (HasTracks (length sights.now) self.new) }
    {
        self.trace.see(Kind::Trace, now, sights)?;
        self.strong.see(Kind::Strong, now, sights)?;
        self.rows.see(Kind::Rows, now, sights)?;
        Ok(())
    }
}

/// The bars of a part, at the end of which these are the layers.
fn bars_in(layers: Layers, part: Part) -> Result<Bars, OutOfMemory>
    ensures { IfOk result (λ bars. (trace : Recording) → HasTracks trace.threads layers
        → AreLayersAt trace part part.to layers → AreBarsOf trace part bars) }
{
    let Layers {
        trace,
        strong,
        rows,
    } = layers;
    Ok(Bars {
        trace: ended(trace, part.to)?,
        strong: ended(strong, part.to)?,
        rows: ended(rows, part.to)?,
    })
}

/// The bars of a layer that ends now.
fn ended(layer: Layer, last: u64) -> Result<Vec<Bar>, OutOfMemory>
    ensures { IfOk result (λ bars. (trace : Recording) (kind : Kind) (first : ℕ)
        → IsLayerAt (Shows trace kind) first last last layer.tracks.items layer.bars.items
        → AreBars (Shows trace kind) (vec_len layer.tracks) first last bars.items) }
{
    let mut layer = layer;
    layer.end(last)?;
    Ok(layer.bars)
}
