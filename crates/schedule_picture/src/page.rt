//! Where things stand on the page of a picture. All of it is whole numbers of the page's units.
ghost use Rattle.std.specs.Prelude.{◌<◌};

use crate::axis::Axis;
use crate::sheet::Sheet;

/// Where the lanes begin, from the left.
pub(crate) const LEFT: u32 = 200;

/// The height of a lane.
pub(crate) const LANE: u32 = 24;

/// The height of a row.
pub(crate) const ROW: u32 = 16;

/// The least width of a page, by its title.
const LEAST_WIDTH: u32 = 640;

/// What a page is made for: the axis, how many lanes and rows it has, where its lanes begin from above, and how wide they
/// are.
#[derive(Clone, Copy)]
pub(crate) struct Page {
    pub(crate) axis: Axis,
    pub(crate) lanes: u8,
    pub(crate) rows: u8,
    pub(crate) top: u16,
    pub(crate) wide: u16,
}

impl Page {
    /// Where the lane of a processor begins, from above.
    pub(crate) fn lane_top(&self, p: u8) -> u32
        ensures { result < 131072 }
    {
        u32::from(self.top) + LANE * u32::from(p)
    }

    /// Where the rows begin, from above.
    pub(crate) fn rows_top(&self) -> u32
        ensures { result < 131200 }
    {
        self.lane_top(self.lanes) + 28
    }

    /// Where a row begins, from above.
    pub(crate) fn row_top(&self, k: u8) -> u32
        ensures { result < 262144 }
    {
        self.rows_top() + ROW * u32::from(k)
    }

    /// Where the rows end.
    pub(crate) fn bottom(&self) -> u32
        ensures { result < 262144 }
    {
        self.row_top(self.rows)
    }

    /// How wide the page is. The labels of columns lean to the right.
    pub(crate) fn width(&self) -> u32 {
        let margin = match self.axis {
            Axis::Time => 40,
            Axis::Steps => 76,
        };
        (LEFT + u32::from(self.wide) + margin).max(LEAST_WIDTH)
    }

    /// Where a place of the axis stands, from the left.
    pub(crate) fn across(&self, sheet: &Sheet, place: u64) -> u32
        ensures { result < 131072 }
    {
        let along = place.saturating_sub(sheet.window.from);
        let wide = u64::from(self.wide);
        let scaled = (along.saturating_mul(wide) / sheet.span()).min(wide);
        LEFT + scaled as u32
    }
}
