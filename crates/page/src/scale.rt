//! Where on the page a value is after so many steps.
ghost use Rattle.page.specs.Scales.{above, across, height, rise, scale_of, share};
ghost use Rattle.std.specs.Prelude.{◌≡◌, ◌≤◌};

use crate::point::{FOOT, LEFT, Point, RIGHT, TOP};

/// How much of the height is left for values above the cut.
const ABOVE: u64 = 600;

/// So many steps go to the right. From the foot of the frame up go the values from the lowest to the cut, and above it,
/// drawn closer together, those from the cut to the highest, if that is not the same.
#[derive(Clone, Copy, PartialEq, Eq, Debug)]
pub struct Scale {
    pub steps: u64,
    pub lowest: u64,
    pub cut: u64,
    pub highest: u64,
}

impl Scale {
    /// The scale that holds so many steps, one at least, and the values from the lowest to the highest. Where the
    /// highest lies much farther up than `usual`, the values are cut above that.
    pub fn of(steps: u64, lowest: u64, usual: u64, highest: u64) -> Scale
        ensures { result ≡ scale_of steps lowest usual highest }
    {
        let used = usual.saturating_sub(lowest);
        let whole = highest.saturating_sub(lowest);
        let cut = if 0 < used && used.saturating_add(used / 2) < whole {
            usual.saturating_add(used / 20)
        } else {
            highest
        };
        Scale {
            steps: steps.max(1),
            lowest,
            cut,
            highest,
        }
    }

    /// Where a value is after so many steps. What is past an edge is drawn at the edge.
    pub fn point(self, steps: u64, value: u64) -> Point
        ensures across { result.x ≡ across self steps }
        ensures height { result.y ≡ height self value }
    {
        Point {
            x: LEFT + share(steps, self.steps, RIGHT - LEFT),
            y: FOOT - self.rise(value),
        }
    }

    /// How far a value is above the foot of the frame.
    fn rise(self, value: u64) -> u64
        ensures rise { result ≡ rise self value }
        ensures fits { result ≤ 7400 }
    {
        let above = self.above();
        let below = FOOT - TOP - above;
        share(
            value.saturating_sub(self.lowest),
            self.cut.saturating_sub(self.lowest),
            below,
        ) + share(
            value.saturating_sub(self.cut),
            self.highest.saturating_sub(self.cut),
            above,
        )
    }

    fn above(self) -> u64
        ensures above { result ≡ above self }
        ensures fits { result ≤ 600 }
    {
        if self.cut < self.highest { ABOVE } else { 0 }
    }
}

/// A part of a whole, as a length on the page out of `span`; more than the whole is the whole.
#[tactic(auto, using(crate::proofs::Shares::share_small))]
fn share(part: u64, whole: u64, span: u64) -> u64
    requires { span ≤ 16000 }
    ensures share { result ≡ share part whole span }
    ensures fits { result ≤ span }
{
    (part.min(whole) as u128 * span as u128 / whole.max(1) as u128) as u64
}
