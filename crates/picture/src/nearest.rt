//! Where two trains came closest.
ghost use Rattle.picture.specs.Nearest.{SmallestGap, gap_between, gap_of, smaller_gap};
ghost use Rattle.std.specs.Prelude.{◌≡◌};

use onboard::Train;

/// A gap: the train ahead of it by number, its rear, and the front of the train behind it.
#[derive(Clone, Copy, PartialEq, Eq, Debug)]
pub struct Gap {
    pub ahead: u64,
    pub rear: u64,
    pub front: u64,
}

impl Gap {
    pub fn size(self) -> u64
        ensures { result ≡ gap_between self }
    {
        self.rear.saturating_sub(self.front)
    }

    fn between(ahead: u64, train: &Train, behind: &Train) -> Gap
        ensures { result ≡ gap_of ahead train.now behind.now }
    {
        Gap {
            ahead,
            rear: train.front.saturating_sub(train.unit.length),
            front: behind.front,
        }
    }
}

/// The smallest gap between neighbours, and of several the foremost.
#[tactic(auto, using(crate::proofs::Gaps::all))]
pub fn smallest_gap(trains: &[Train]) -> Option<Gap>
    ensures { SmallestGap trains.now result }
{
    let mut smallest: Option<Gap> = None;
    for ahead in 0..trains.len().saturating_sub(1) {
        let next = Gap::between(ahead as u64, &trains[ahead], &trains[ahead + 1]);
        smallest = Some(smaller_gap(smallest, next));
    }
    smallest
}

/// The next gap where it is smaller than the smallest so far.
fn smaller_gap(smallest: Option<Gap>, next: Gap) -> Gap
    ensures { result ≡ smaller_gap smallest next }
{
    match smallest {
        Some(smallest) if smallest.size() <= next.size() => smallest,
        _ => next,
    }
}
