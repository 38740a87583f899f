// Reading a line.
ghost use Rattle.braking.specs.Limits.{speed_max};
ghost use Rattle.scenario.specs.Inside.{NoEntry};
ghost use Rattle.scenario.specs.Keywords.{spelling};
ghost use Rattle.scenario.specs.Lines.{EventFits, Fits, HeadFits, entry_words, event_words, head_words};
ghost use Rattle.text.specs.Numbers.{IsNumber};
ghost use Rattle.safety.specs.declared.event.Event.{Event};
ghost use Rattle.scenario.specs.declared.entry.Entry.{Entry};
ghost use Rattle.scenario.specs.declared.entry.HeadLine.{HeadLine};
ghost use Rattle.scenario.specs.declared.keyword.Keyword.TheVariants.{Tick, Train};
ghost use Rattle.text.specs.Words.{words};
ghost use Rattle.std.specs.Prelude.{◌≡◌, ◌≢◌, ◌∷◌, ℕ, ◌<◌, ◌≤◌, List, [], IfNone, IfSome, codes, decimal};

use crate::entry::{Entry, HeadLine};
use crate::keyword::Keyword;
use braking::limits::SPEED_MAX;
use onboard::InitialTrain;
use safety::Event;
use text::{after, is_empty, next_number, next_word};

// What a line says: the entry that is written with its words, if there is one.
#[tactic(auto, using(crate::proofs::Entries::none_after, crate::proofs::Entries::no_keyword))]
pub fn read_line(line: &str) -> Option<Entry>
    ensures some { IfSome result (λ entry. words line.now ≡ entry_words entry) }
    ensures fits { IfSome result (λ entry. Fits entry) }
    ensures none { IfNone result ((entry : Entry) → Fits entry → words line.now ≢ entry_words entry) }
{
    let (word, rest) = next_word(line)?;
    read_after(Keyword::of(word)?, rest)
}

// The line of a head that a line is, if it is one.
#[tactic(auto, using(crate::proofs::Entries::other_kind, crate::proofs::Entries::no_head_line))]
pub fn read_head_line(line: &str) -> Option<HeadLine>
    ensures some { IfSome result (λ head. words line.now ≡ head_words head) }
    ensures fits { IfSome result (λ head. HeadFits head) }
    ensures none { IfNone result ((head : HeadLine) → HeadFits head → words line.now ≢ head_words head) }
{
    match read_line(line)? {
        Entry::Head(head) => Some(head),
        Entry::Event(_) => None,
    }
}

// The event that a line is, if it is one.
#[tactic(auto, using(crate::proofs::Entries::other_kind, crate::proofs::Entries::no_event))]
pub fn read_event(line: &str) -> Option<Event>
    ensures some { IfSome result (λ event. words line.now ≡ event_words event) }
    ensures fits { IfSome result (λ event. EventFits event) }
    ensures none { IfNone result ((event : Event) → EventFits event → words line.now ≢ event_words event) }
{
    match read_line(line)? {
        Entry::Head(_) => None,
        Entry::Event(event) => Some(event),
    }
}

// The entry that begins with the keyword and goes on with the line.
fn read_after(keyword: Keyword, line: &str) -> Option<Entry>
    ensures some { IfSome result (λ entry. spelling keyword ∷ words line.now ≡ entry_words entry) }
    ensures fits { IfSome result (λ entry. Fits entry) }
    ensures none { IfNone result (NoEntry keyword (words line.now)) }
{
    Some(match keyword {
        Keyword::Brake => Entry::Head(HeadLine::Brake(last_number(line)?)),
        Keyword::Blur => Entry::Head(HeadLine::Blur(last_number(line)?)),
        Keyword::Controllers => Entry::Head(HeadLine::Controllers(last_number(line)?)),
        Keyword::Train => Entry::Head(HeadLine::Train(standing(line)?)),
        Keyword::Tick => Entry::Event(tick(line)?),
        Keyword::Mark => Entry::Event(Event::Mark {
            train: last_number(line)?,
        }),
        Keyword::Report => Entry::Event(Event::Report {
            train: last_number(line)?,
        }),
        Keyword::Hear => {
            let (controller, message) = two_numbers(line, "message")?;
            Entry::Event(Event::Hear {
                controller,
                message,
            })
        }
        Keyword::Tell => {
            let (controller, train) = two_numbers(line, "train")?;
            Entry::Event(Event::Tell { controller, train })
        }
        Keyword::Grant => {
            let (controller, train) = two_numbers(line, "train")?;
            Entry::Event(Event::Grant { controller, train })
        }
        Keyword::Take => Entry::Event(Event::Take {
            message: last_number(after(line, "message")?)?,
        }),
        Keyword::Restart => Entry::Event(Event::Restart {
            controller: last_number(line)?,
        }),
    })
}

// A number, with nothing after it.
fn last_number(line: &str) -> Option<u64>
    ensures some { IfSome result (λ n. words line.now ≡ decimal n ∷ []) }
    ensures none { IfNone result ((n : ℕ) → IsNumber n → words line.now ≢ decimal n ∷ []) }
{
    let (number, rest) = next_number(line)?;
    if is_empty(rest) { Some(number) } else { None }
}

// A number, a word and a number, with nothing after them.
fn two_numbers(line: &str, between: &str) -> Option<(u64, u64)>
    ensures some { IfSome result (λ found. words line.now ≡ decimal found.0 ∷ between.now ∷ decimal found.1 ∷ []) }
    ensures none { IfNone result ((m n : ℕ) → IsNumber m → IsNumber n → words line.now ≢ decimal m ∷ between.now ∷ decimal n ∷ []) }
{
    let (first, rest) = next_number(line)?;
    let second = last_number(after(rest, between)?)?;
    Some((first, second))
}

// What follows `tick`.
#[tactic(auto, using(crate::proofs::Entries::later))]
fn tick(line: &str) -> Option<Event>
    ensures some { IfSome result (λ event. codes "tick" ∷ words line.now ≡ event_words event) }
    ensures fits { IfSome result (λ event. EventFits event) }
    ensures none { IfNone result (NoEntry Tick (words line.now)) }
{
    let (train, rest) = next_number(line)?;
    let (wish, rest) = next_wish(after(rest, "wish")?)?;
    let speed = last_number(after(rest, "speed")?)?;
    Some(Event::Tick { train, wish, speed })
}

// The wish that a line begins with, and what comes after it.
#[tactic(auto, using(text::proofs::Decimals::past_limit, crate::proofs::Entries::other_first))]
fn next_wish(line: &str) -> Option<(u64, &str)>
    ensures some { IfSome result (λ found. words line.now ≡ decimal found.0 ∷ words found.1.now) }
    ensures fits { IfSome result (λ found. found.0 ≤ speed_max) }
    ensures none { IfNone result ((n : ℕ) (rest : List (List ℕ)) → n ≤ speed_max → words line.now ≢ decimal n ∷ rest) }
{
    let (wish, rest) = next_number(line)?;
    if wish <= SPEED_MAX {
        Some((wish, rest))
    } else {
        None
    }
}

// What follows `train`.
#[tactic(auto, using(crate::proofs::Entries::later))]
fn standing(line: &str) -> Option<InitialTrain>
    ensures some { IfSome result (λ s. words line.now ≡ decimal s.low ∷ decimal s.front ∷ decimal s.high ∷ decimal s.end ∷ decimal s.length ∷ []) }
    ensures none { IfNone result (NoEntry Train (words line.now)) }
{
    let (low, rest) = next_number(line)?;
    let (front, rest) = next_number(rest)?;
    let (high, rest) = next_number(rest)?;
    let (end, rest) = next_number(rest)?;
    let length = last_number(rest)?;
    Some(InitialTrain {
        low,
        front,
        high,
        end,
        length,
    })
}
