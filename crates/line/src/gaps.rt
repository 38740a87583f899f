// The gaps between trains.
ghost use Rattle.line.specs.Inside.{count_of, smaller, with_gap, with_more};
ghost use Rattle.line.specs.Runs.{Counted};
ghost use Rattle.line.specs.Words.{gaps_text};
ghost use Rattle.std.specs.Prelude.{◌≡◌, ℕ, ◌+◌, ◌<◌, ◌^◌, ◌++◌, List, [], Some, length};

use std::fmt;

// How many were looked at, and the smallest of them.
#[derive(Clone, Copy, PartialEq, Eq, Debug)]
pub struct Gaps {
    // wide enough for as many events as memory can hold
    pub count: u128,
    pub smallest: Option<u64>,
}

impl Gaps {
    pub(crate) fn none() -> Self
        ensures { result ≡ count_of [] }
    {
        Gaps {
            count: 0,
            smallest: None,
        }
    }

    // One more was looked at.
    pub(crate) fn with(self, gap: u64) -> Self
        requires { self.count + 1 < 2 ^ 128 }
        ensures { result ≡ with_gap self gap }
    {
        let smallest = match self.smallest {
            None => gap,
            Some(smallest) => smallest.min(gap),
        };
        Gaps {
            count: self.count + 1,
            smallest: Some(smallest),
        }
    }

    // So many more were looked at; where any of them is smaller than all before, this one is the smallest.
    pub(crate) fn with_more(self, more: usize, narrowed: Option<u64>) -> Self
        requires { self.count + more < 2 ^ 128 }
        ensures { result ≡ with_more self more narrowed }
    {
        Gaps {
            count: self.count + more as u128,
            smallest: smaller(self.smallest, narrowed),
        }
    }
}

impl Gaps {
    // The gaps of one run and of the next, together.
    pub fn and(self, next: Gaps) -> Gaps
        ensures { (before after : List ℕ) → Counted self before → Counted next after → length (before ++ after) < 2 ^ 128 → Counted result (before ++ after) }
    {
        Gaps {
            count: self.count.saturating_add(next.count),
            smallest: smaller(self.smallest, next.smallest),
        }
    }
}

// The smaller of two numbers, where there are two.
fn smaller(one: Option<u64>, other: Option<u64>) -> Option<u64>
    ensures { result ≡ smaller one other }
{
    match (one, other) {
        (Some(one), Some(other)) => Some(one.min(other)),
        (None, other) => other,
        (one, None) => one,
    }
}

impl fmt::Display for Gaps {
    ghost output = { λ gaps. Some (gaps_text gaps) };

    #[tactic(auto, unfolding(crate::specs::Words::gaps_text, crate::specs::Words::smallest_text))]
    fn fmt<W: fmt::Write>(&self, f: &mut fmt::Formatter<W>) -> fmt::Result {
        let count = self.count;
        match self.smallest {
            None => write!(f, "{count} gaps"),
            Some(smallest) => write!(f, "{count} gaps, smallest {smallest}"),
        }
    }
}
