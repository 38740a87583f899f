//! What is asked of random days: the words after `--random`.
ghost use Rattle.arguments.specs.AskedDays.{AnswersDays, after_words, asked_days, choice_of, number_in, most_of, with_number};
ghost use Rattle.arguments.specs.declared.asked_days.Setting.TheVariants.{Seed};
ghost use Rattle.arguments.specs.declared.asked_days.DaysError.TheVariants.{WrongNumber};
ghost use Rattle.std.specs.Prelude.{◌≡◌, IfErr, IfOk, None, Some, map, string_bytes};

use braking::limits::{CONTROLLERS_MAX, TRAINS_MAX};
use std::fmt;
use text::number;

// What is given by a number.
#[derive(Clone, Copy, PartialEq, Eq, Debug)]
pub enum Setting {
    Seed,
    Days,
    Events,
    Trains,
    Controllers,
}

// So many days, the first of which has the seed, and each one after it the seed that is one more.
#[derive(Clone, Copy, PartialEq, Eq, Debug)]
pub struct RandomDays {
    pub seed: u64,
    pub days: u64,
    // so many events in each, and so many trains and controllers at most
    pub events: u64,
    pub trains: u64,
    pub controllers: u64,
    // only the sum is told
    pub quiet: bool,
    // the scenario of the day is printed, and not played
    pub write: bool,
}

#[derive(Clone, Copy, PartialEq, Eq, Debug)]
pub enum DaysError<'a> {
    Unknown(&'a str),
    NoNumber(Setting),
    WrongNumber(Setting, &'a str),
    // the scenarios of several days would be no scenario
    WriteOneDay,
}

// What was given so far.
#[derive(Clone, Copy, PartialEq, Eq, Debug)]
pub struct GivenDays {
    pub quiet: bool,
    pub write: bool,
    pub seed: u64,
    pub days: Option<u64>,
    pub events: Option<u64>,
    pub trains: Option<u64>,
    pub controllers: Option<u64>,
}

// What a word means after `--random` and its number.
#[derive(Clone, Copy, PartialEq, Eq, Debug)]
pub enum Choice {
    Quiet,
    Write,
    Number(Setting),
    Unknown,
}

pub fn read_days<'a>(words: &'a [String]) -> Result<RandomDays, DaysError<'a>>
    ensures { AnswersDays result (asked_days (map string_bytes words.now)) }
{
    let mut given = GivenDays {
        quiet: false,
        write: false,
        seed: 0,
        days: None,
        events: None,
        trains: None,
        controllers: None,
    };
    let mut wanted = Some(Setting::Seed);
    for word in words {
        let word = word.as_str();
        match wanted {
            Some(setting) => {
                given = given.with_number(setting, setting.number(word)?);
                wanted = None;
            }
            None => match Choice::of(word) {
                Choice::Quiet => given.quiet = true,
                Choice::Write => given.write = true,
                Choice::Number(setting) => wanted = Some(setting),
                Choice::Unknown => return Err(DaysError::Unknown(word)),
            },
        }
    }
    match wanted {
        Some(setting) => Err(DaysError::NoNumber(setting)),
        None => given.asked(),
    }
}

impl GivenDays {
    fn with_number(self, setting: Setting, number: u64) -> GivenDays
        ensures { result ≡ with_number self setting number }
    {
        let seed = number;
        let number = Some(number);
        match setting {
            Setting::Seed => GivenDays { seed, ..self },
            Setting::Days => GivenDays {
                days: number,
                ..self
            },
            Setting::Events => GivenDays {
                events: number,
                ..self
            },
            Setting::Trains => GivenDays {
                trains: number,
                ..self
            },
            Setting::Controllers => GivenDays {
                controllers: number,
                ..self
            },
        }
    }

    // What is asked for where no word follows.
    fn asked<'a>(self) -> Result<RandomDays, DaysError<'a>>
        ensures { AnswersDays result (after_words self) }
    {
        let days = self.days.unwrap_or(1);
        if self.write && days != 1 {
            return Err(DaysError::WriteOneDay);
        }
        Ok(RandomDays {
            seed: self.seed,
            days,
            events: self.events.unwrap_or(400),
            trains: self.trains.unwrap_or(5),
            controllers: self.controllers.unwrap_or(2),
            quiet: self.quiet,
            write: self.write,
        })
    }
}

impl Setting {
    // The largest number that it can have.
    pub fn most(self) -> u64
        ensures { result ≡ most_of self }
    {
        match self {
            Setting::Seed | Setting::Days | Setting::Events => u64::MAX,
            Setting::Trains => TRAINS_MAX as u64,
            Setting::Controllers => CONTROLLERS_MAX as u64,
        }
    }

    fn option(self) -> &'static str {
        match self {
            Setting::Seed => "--random",
            Setting::Days => "--days",
            Setting::Events => "--events",
            Setting::Trains => "--trains",
            Setting::Controllers => "--controllers",
        }
    }

    // The number that a word writes, if it can be given.
    #[tactic(auto, using(crate::proofs::Numbers::number_read, crate::proofs::Numbers::no_number, crate::proofs::Numbers::too_high))]
    fn number<'a>(self, word: &'a str) -> Result<u64, DaysError<'a>>
        ensures ok { IfOk result (λ n. number_in (most_of self) word.now ≡ Some n) }
        ensures err { IfErr result (λ error. (number_in (most_of self) word.now ≡ None) × (error ≡ WrongNumber self word.entry)) }
    {
        match number(word) {
            Some(number) if number <= self.most() => Ok(number),
            _ => Err(DaysError::WrongNumber(self, word)),
        }
    }
}

impl Choice {
    fn of(word: &str) -> Choice
        ensures { result ≡ choice_of word.now }
    {
        match word {
            "--quiet" => Choice::Quiet,
            "--write" => Choice::Write,
            "--days" => Choice::Number(Setting::Days),
            "--events" => Choice::Number(Setting::Events),
            "--trains" => Choice::Number(Setting::Trains),
            "--controllers" => Choice::Number(Setting::Controllers),
            _ => Choice::Unknown,
        }
    }
}

impl<'a> fmt::Display for DaysError<'a> {
    fn fmt<W: fmt::Write>(&self, f: &mut fmt::Formatter<W>) -> fmt::Result {
        match self {
            DaysError::Unknown(word) => write!(
                f,
                "'{word}' is nothing that goes with --random: bench --help tells what does"
            ),
            DaysError::NoNumber(setting) => {
                let option = setting.option();
                let most = setting.most();
                write!(f, "{option} wants a number from 0 to {most} after it")
            }
            DaysError::WrongNumber(setting, word) => {
                let option = setting.option();
                let most = setting.most();
                write!(
                    f,
                    "{option} wants a number from 0 to {most} after it, and found '{word}'"
                )
            }
            DaysError::WriteOneDay => f.write_str(
                "--write prints one day, and --days asks for another number of them",
            ),
        }
    }
}
