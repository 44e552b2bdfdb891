//! The tracks of all processors and tasks, which follow the links from entry to entry.
ghost use Rattle.std.specs.Prelude.{◌≡◌, ◌<◌, replicate, vec_len, IfOk, OnOk};
ghost use Rattle.strong_apa.specs.State.{task_count};
ghost use Rattle.schedule_picture.specs.Spans.{lane_of, absence_of};
ghost use Rattle.schedule_picture.specs.Track.{fresh_track};
ghost use Rattle.schedule_picture.specs.Tracks.{EachSees, OneSees, AllSee, AreFresh, AreTracksOf, ShowBefore, EachEnds, OneEnds, AllEnd};

use crate::rows::see_rows;
use crate::span::Seen;
use crate::track::Track;
use affinity_mask::OutOfMemory;
use link_table::Links;
use std::alloc::Global;

/// By processor who is linked to it, and when it is off line; by task where it is linked, and when it waits.
#[derive(Drop)]
pub struct Tracks {
    pub lanes: Vec<Track>,
    pub absences: Vec<Track>,
    pub rows: Vec<Track>,
}

impl Tracks {
    /// Before the first entry. Refused only where memory runs out.
    pub(crate) fn new(alloc: Global, processors: u8, tasks: u32) -> Result<Tracks, OutOfMemory>
        ensures { IfOk result (AreFresh processors tasks) }
    {
        let lanes = fresh_tracks(alloc, u32::from(processors))?;
        let absences = fresh_tracks(alloc, u32::from(processors))?;
        let rows = fresh_tracks(alloc, tasks)?;
        Ok(Tracks {
            lanes,
            absences,
            rows,
        })
    }

    /// Follows entry n, which lets this task come or go, and after which these are the links. Of the tasks it looks only at
    /// those of which the entry can change something. Refused only where memory runs out.
    pub(crate) fn see(
        &mut self,
        links: &Links,
        n: u32,
        mover: Option<u32>,
    ) -> Result<(), OutOfMemory>
        requires counts { AreTracksOf links.now.processors (task_count links.now) self.old }
        requires before { ShowBefore mover links.now self.old.lanes.items self.old.rows.items }
        ensures { OnOk result (AllSee n links.now self.old self.new) }
    {
        see_rows(&mut self.rows, &self.lanes, links, n, mover)?;
        see_lanes(&mut self.lanes, links, n)?;
        see_absences(&mut self.absences, links, n)
    }

    /// Ends the last span of each track before this entry. Refused only where memory runs out.
    pub(crate) fn end(&mut self, until: u32) -> Result<(), OutOfMemory>
        ensures { OnOk result (AllEnd until self.old self.new) }
    {
        end_all(&mut self.lanes, until)?;
        end_all(&mut self.absences, until)?;
        end_all(&mut self.rows, until)
    }
}

/// So many tracks that have seen nothing.
fn fresh_tracks(alloc: Global, count: u32) -> Result<Vec<Track>, OutOfMemory>
    ensures { IfOk result (λ tracks. tracks.items ≡ replicate count fresh_track) }
{
    let mut tracks = Vec::new(alloc);
    for _x in 0..count {
        tracks.push(Track::new(alloc))?;
    }
    Ok(tracks)
}

/// Who is linked to each processor after entry n.
fn see_lanes(lanes: &mut Vec<Track>, links: &Links, n: u32) -> Result<(), OutOfMemory>
    requires { vec_len lanes.old ≡ links.now.processors }
    ensures { OnOk result (EachSees n (lane_of links.now) lanes.old.items lanes.new.items) }
{
    for p in 0..links.processors() {
        see_one(lanes, p as usize, n, lane_in(links, p))?;
    }
    Ok(())
}

/// Which processors are off line after entry n.
fn see_absences(absences: &mut Vec<Track>, links: &Links, n: u32) -> Result<(), OutOfMemory>
    requires { vec_len absences.old ≡ links.now.processors }
    ensures { OnOk result (EachSees n (absence_of links.now) absences.old.items absences.new.items) }
{
    for p in 0..links.processors() {
        see_one(absences, p as usize, n, absence_in(links, p))?;
    }
    Ok(())
}

/// What one track sees after entry n.
pub(crate) fn see_one(
    tracks: &mut Vec<Track>,
    x: usize,
    n: u32,
    seen: Option<Seen>,
) -> Result<(), OutOfMemory>
    requires { x < vec_len tracks.old }
    ensures { OnOk result (OneSees n x seen tracks.old.items tracks.new.items) }
{
    tracks[x].see(n, seen)
}

/// The task that is linked to a processor.
fn lane_in(links: &Links, p: u8) -> Option<Seen>
    requires { p < links.now.processors }
    ensures { result ≡ lane_of links.now p }
{
    let t = links.on(p)?;
    Some(Seen::Task(t))
}

/// Whether a processor is off line.
fn absence_in(links: &Links, p: u8) -> Option<Seen>
    requires { p < links.now.processors }
    ensures { result ≡ absence_of links.now p }
{
    if links.is_online(p) {
        None
    } else {
        Some(Seen::OffLine)
    }
}

/// Each track ends its last span before this entry. Refused only where memory runs out.
fn end_all(tracks: &mut Vec<Track>, until: u32) -> Result<(), OutOfMemory>
    ensures { OnOk result (EachEnds until tracks.old.items tracks.new.items) }
{
    for x in 0..tracks.len() {
        end_one(tracks, x, until)?;
    }
    Ok(())
}

/// One track ends its last span before this entry.
fn end_one(tracks: &mut Vec<Track>, x: usize, until: u32) -> Result<(), OutOfMemory>
    requires { x < vec_len tracks.old }
    ensures { OnOk result (OneEnds until x tracks.old.items tracks.new.items) }
{
    tracks[x].close(until)
}
