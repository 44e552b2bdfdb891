//! Where things stand on the page of a picture. All of it is whole numbers of the page's units.
ghost use Rattle.std.specs.Prelude.{◌≡◌, ◌≤◌};
ghost use Rattle.trace_picture.specs.Page.{strong_top, rows_top, bottom};

/// How many processors there are, how many lanes of the trace are drawn, and how many rows.
#[derive(Clone, Copy)]
pub(crate) struct Page {
    pub(crate) processors: u8,
    pub(crate) lanes: u8,
    pub(crate) rows: u8,
}

/// Where the lanes of the trace begin, from above.
pub(crate) const TOP: u32 = 56;

/// The height of a lane.
pub(crate) const LANE: u32 = 24;

/// The height of a row.
pub(crate) const ROW: u32 = 16;

impl Page {
    /// Where the lanes of strong scheduling begin, from above.
    pub(crate) fn strong_top(&self) -> u32
        ensures value { result ≡ strong_top self.now }
        ensures bound { result ≤ 65535 }
    {
        TOP + LANE * u32::from(self.lanes) + 28
    }

    /// Where the rows begin, from above.
    pub(crate) fn rows_top(&self) -> u32
        ensures value { result ≡ rows_top self.now }
        ensures bound { result ≤ 65535 }
    {
        self.strong_top() + LANE * u32::from(self.processors) + 28
    }

    /// Where the rows end.
    pub(crate) fn bottom(&self) -> u32
        ensures value { result ≡ bottom self.now }
        ensures bound { result ≤ 65535 }
    {
        self.rows_top() + ROW * u32::from(self.rows)
    }
}
