// Events that stand as `write` writes them, with one blank between words: most lines of most files. They are read in one pass.
ghost use Rattle.safety.specs.declared.event.Event.{Event};
ghost use Rattle.scenario.specs.Inside.{EventShort, NoTick, NoTwo};
ghost use Rattle.scenario.specs.Lines.{EventFits, event_words};
ghost use Rattle.text.specs.Plain.{IsShort, NoNumber, line_then};
ghost use Rattle.text.specs.Written.{line_text};
ghost use Rattle.std.specs.Prelude.{◌≡◌, ◌≢◌, ◌∷◌, ◌++◌, ℕ, List, [], IfNone, IfSome, codes, decimal};

use braking::limits::SPEED_MAX;
use safety::Event;
use text::plain::{after, last_number, number};

// The event that a text begins with, and what comes after its line.
#[tactic(auto, using(crate::proofs::OnePass::no_event, crate::proofs::OnePass::no_tick, crate::proofs::OnePass::no_mark, crate::proofs::OnePass::no_report, crate::proofs::OnePass::no_hear, crate::proofs::OnePass::no_tell, crate::proofs::OnePass::no_grant, crate::proofs::OnePass::no_take, crate::proofs::OnePass::no_restart))]
pub fn plain_event(text: &[u8]) -> Option<(Event, &[u8])>
    ensures written { IfSome result (λ found. text.now ≡ line_text (event_words found.0) ++ found.1.now) }
    ensures fits { IfSome result (λ found. EventFits found.0) }
    ensures none { IfNone result ((event : Event) (rest : List ℕ) → EventShort event → text.now ≢ line_then (event_words event) rest) }
{
    match text {
        [b't', b'i', ..] => tick(after(text, b"tick")?),
        [b't', b'a', ..] => take(after(text, b"take")?),
        [b't', ..] => tell(after(text, b"tell")?),
        [b'm', ..] => mark(after(text, b"mark")?),
        [b'h', ..] => hear(after(text, b"hear")?),
        [b'g', ..] => grant(after(text, b"grant")?),
        [b'r', b'e', b'p', ..] => report(after(text, b"report")?),
        [b'r', ..] => restart(after(text, b"restart")?),
        _ => None,
    }
}

// What follows `tick`.
#[tactic(auto, using(crate::proofs::Plain::tick_written))]
fn tick(text: &[u8]) -> Option<(Event, &[u8])>
    ensures written { IfSome result (λ found. codes "tick" ++ 32 ∷ text.now ≡ line_text (event_words found.0) ++ found.1.now) }
    ensures fits { IfSome result (λ found. EventFits found.0) }
    ensures none { IfNone result (NoTick text.now) }
{
    let (train, rest) = number(text)?;
    let (wish, rest) = number(after(rest, b"wish")?)?;
    let (speed, rest) = last_number(after(rest, b"speed")?)?;
    if wish > SPEED_MAX {
        return None;
    }
    Some((Event::Tick { train, wish, speed }, rest))
}

// What follows `mark`, and so on.
#[tactic(auto, using(text::proofs::OnePass::one_more_word))]
fn mark(text: &[u8]) -> Option<(Event, &[u8])>
    ensures written { IfSome result (λ found. codes "mark" ++ 32 ∷ text.now ≡ line_text (event_words found.0) ++ found.1.now) }
    ensures fits { IfSome result (λ found. EventFits found.0) }
    ensures none { IfNone result (NoNumber text.now) }
{
    let (train, rest) = last_number(text)?;
    Some((Event::Mark { train }, rest))
}

#[tactic(auto, using(text::proofs::OnePass::one_more_word))]
fn report(text: &[u8]) -> Option<(Event, &[u8])>
    ensures written { IfSome result (λ found. codes "report" ++ 32 ∷ text.now ≡ line_text (event_words found.0) ++ found.1.now) }
    ensures fits { IfSome result (λ found. EventFits found.0) }
    ensures none { IfNone result (NoNumber text.now) }
{
    let (train, rest) = last_number(text)?;
    Some((Event::Report { train }, rest))
}

#[tactic(auto, using(text::proofs::OnePass::one_more_word))]
fn hear(text: &[u8]) -> Option<(Event, &[u8])>
    ensures written { IfSome result (λ found. codes "hear" ++ 32 ∷ text.now ≡ line_text (event_words found.0) ++ found.1.now) }
    ensures fits { IfSome result (λ found. EventFits found.0) }
    ensures none { IfNone result (NoTwo (codes "message") text.now) }
{
    let (controller, message, rest) = two_numbers(text, b"message")?;
    Some((
        Event::Hear {
            controller,
            message,
        },
        rest,
    ))
}

#[tactic(auto, using(text::proofs::OnePass::one_more_word))]
fn tell(text: &[u8]) -> Option<(Event, &[u8])>
    ensures written { IfSome result (λ found. codes "tell" ++ 32 ∷ text.now ≡ line_text (event_words found.0) ++ found.1.now) }
    ensures fits { IfSome result (λ found. EventFits found.0) }
    ensures none { IfNone result (NoTwo (codes "train") text.now) }
{
    let (controller, train, rest) = two_numbers(text, b"train")?;
    Some((Event::Tell { controller, train }, rest))
}

#[tactic(auto, using(text::proofs::OnePass::one_more_word))]
fn grant(text: &[u8]) -> Option<(Event, &[u8])>
    ensures written { IfSome result (λ found. codes "grant" ++ 32 ∷ text.now ≡ line_text (event_words found.0) ++ found.1.now) }
    ensures fits { IfSome result (λ found. EventFits found.0) }
    ensures none { IfNone result (NoTwo (codes "train") text.now) }
{
    let (controller, train, rest) = two_numbers(text, b"train")?;
    Some((Event::Grant { controller, train }, rest))
}

#[tactic(auto, using(text::proofs::OnePass::two_more_words))]
fn take(text: &[u8]) -> Option<(Event, &[u8])>
    ensures written { IfSome result (λ found. codes "take" ++ 32 ∷ text.now ≡ line_text (event_words found.0) ++ found.1.now) }
    ensures fits { IfSome result (λ found. EventFits found.0) }
    ensures none { IfNone result ((n : ℕ) (rest : List ℕ) → IsShort n → text.now ≢ line_then (codes "message" ∷ decimal n ∷ []) rest) }
{
    let (message, rest) = last_number(after(text, b"message")?)?;
    Some((Event::Take { message }, rest))
}

#[tactic(auto, using(text::proofs::OnePass::one_more_word))]
fn restart(text: &[u8]) -> Option<(Event, &[u8])>
    ensures written { IfSome result (λ found. codes "restart" ++ 32 ∷ text.now ≡ line_text (event_words found.0) ++ found.1.now) }
    ensures fits { IfSome result (λ found. EventFits found.0) }
    ensures none { IfNone result (NoNumber text.now) }
{
    let (controller, rest) = last_number(text)?;
    Some((Event::Restart { controller }, rest))
}

// Two numbers with a word between them, which end a line.
#[tactic(auto, using(text::proofs::OnePass::two_more_words))]
fn two_numbers<'a>(text: &'a [u8], between: &[u8]) -> Option<(u64, u64, &'a [u8])>
    ensures written { IfSome result (λ found. text.now ≡ line_text (decimal found.0 ∷ between.now ∷ decimal found.1 ∷ []) ++ found.2.now) }
    ensures none { IfNone result (NoTwo between.now text.now) }
{
    let (first, rest) = number(text)?;
    let (second, rest) = last_number(after(rest, between)?)?;
    Some((first, second, rest))
}
