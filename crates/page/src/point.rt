//! The page, its frame, and points inside the frame. Lengths are in tenths of a pixel, to the right and downwards.
ghost use Rattle.page.specs.Page.{Inside};
ghost use Rattle.std.specs.Prelude.{◌≡◌};

use std::fmt;

pub const PAGE_WIDTH: u64 = 16_000;

pub const PAGE_HEIGHT: u64 = 11_300;

/// Points of the graph lie between this and [`RIGHT`], [`TOP`] and [`FOOT`].
pub const LEFT: u64 = 1_250;

pub const RIGHT: u64 = 14_150;

pub const TOP: u64 = 1_500;

pub const FOOT: u64 = 8_900;

/// The frame is drawn so far outside of all points, and no glyph is larger than that.
pub const MARGIN: u64 = 100;

pub const FRAME_LEFT: u64 = LEFT - MARGIN;

pub const FRAME_RIGHT: u64 = RIGHT + MARGIN;

pub const FRAME_TOP: u64 = TOP - MARGIN;

pub const FRAME_FOOT: u64 = FOOT + MARGIN;

/// A point of the graph. It always carries the fact that it lies inside the frame.
#[derive(Clone, Copy, PartialEq, Eq, Debug)]
pub struct Point {
    pub x: u64,
    pub y: u64,
    ghost inside: { Inside x y },
}

impl Point {
    /// The place of one at the height of the other: where a step turns.
    pub fn level_with(self, other: Point) -> Point
        ensures { (result.x ≡ self.x) × (result.y ≡ other.y) }
    {
        Point {
            x: self.x,
            y: other.y,
        }
    }
}

impl fmt::Display for Point {
    fn fmt<W: fmt::Write>(&self, f: &mut fmt::Formatter<W>) -> fmt::Result {
        write!(f, "{},{}", self.x, self.y)
    }
}
