//! How often each kind of event comes.
use crate::chance::Chance;

#[derive(Clone, Copy, PartialEq, Eq, Debug)]
pub enum Kind {
    Tick,
    Mark,
    Report,
    Hear,
    Tell,
    Grant,
    Take,
    Restart,
}

/// Which kinds a day has most of.
#[derive(Clone, Copy, PartialEq, Eq, Debug)]
pub enum Kinds {
    /// All, in a proportion in which trains get on.
    Mixed,
    /// Trains that drive much and hear little.
    Driving,
    /// Messages, and few ticks.
    Radio,
    /// Each kind as often as another.
    Even,
}

impl Kinds {
    pub fn any(chance: &mut Chance) -> Kinds {
        match chance.up_to(5) {
            0 => Kinds::Driving,
            1 => Kinds::Radio,
            2 => Kinds::Even,
            _ => Kinds::Mixed,
        }
    }

    /// A kind, as often as its share of all of them.
    pub fn one(self, chance: &mut Chance) -> Kind {
        let shares = self.shares();
        let mut all = 0u64;
        for (_, share) in &shares {
            all = all.saturating_add(*share);
        }
        let mut left = chance.up_to(all.saturating_sub(1));
        for (kind, share) in &shares {
            if left < *share {
                return *kind;
            }
            left -= *share;
        }
        Kind::Tick
    }

    fn shares(self) -> [(Kind, u64); 8] {
        let [tick, mark, report, hear, tell, grant, take, restart] = match self {
            Kinds::Mixed => [12, 2, 4, 5, 2, 4, 8, 1],
            Kinds::Driving => [30, 2, 2, 2, 1, 2, 4, 0],
            Kinds::Radio => [3, 1, 8, 10, 5, 6, 12, 1],
            Kinds::Even => [1, 1, 1, 1, 1, 1, 1, 1],
        };
        [
            (Kind::Tick, tick),
            (Kind::Mark, mark),
            (Kind::Report, report),
            (Kind::Hear, hear),
            (Kind::Tell, tell),
            (Kind::Grant, grant),
            (Kind::Take, take),
            (Kind::Restart, restart),
        ]
    }
}
