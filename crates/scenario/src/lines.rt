//! Reading a scenario's text: its head, and then its events.
ghost use Rattle.braking.specs.Memory.{Full};
ghost use Rattle.scenario.specs.Ends.{Ends, Stopped};
ghost use Rattle.scenario.specs.Texts.{EventsRead, HeadRead, is_double};
ghost use Rattle.scenario.specs.declared.entry.HeadLine.{HeadLine};
ghost use Rattle.text.specs.Lines.{GoneOn, Said, left, line_after, line_past};
ghost use Rattle.std.specs.Prelude.{◌≡◌, ◌<◌, ◌+◌, ◌∷◌, ◌++◌, List, [], ◌⊎◌, IfErr, IfNone, IfOk, IfSome, OnErr, drop, length};

use crate::entry::HeadLine;
use crate::plain_event::plain_event;
use crate::reading::{read_event, read_head_line};
use safety::Event;
use std::alloc::{AllocError, Global};
use text::{Reader, SaidLine};

/// Why there is no next event.
#[derive(Clone, Copy, PartialEq, Eq, Debug)]
pub enum Stop {
    // there are no more lines that say something
    End,
    // the next line is no event
    Unreadable { line: u64 },
}

/// Reads the head.
#[tactic(auto, using(text::proofs::GoingOn::gone_nowhere, text::proofs::GoingOn::gone_again))]
pub fn read_head(reader: &mut Reader<'_>, alloc: Global) -> Result<Vec<HeadLine>, AllocError>
    ensures read { IfOk result (λ lines. HeadRead [] (left reader.old) lines.items (left reader.new)) }
    ensures next { IfOk result (λ lines. reader.new.line ≡ line_past reader.old.line (length lines.items) (left reader.old)) }
    ensures gone { GoneOn reader.old reader.new }
{
    let mut lines = Vec::new(alloc);
    while let Some(line) = next_head_line(reader, &lines) {
        lines.push(line)?;
    }
    Ok(lines)
}

// Takes the next line of the head, after some lines of it; where the head ends, nothing.
fn next_head_line(reader: &mut Reader<'_>, before: &[HeadLine]) -> Option<HeadLine>
    ensures some { IfSome result (λ line. (more : List HeadLine) (rest : List Said) →
        HeadRead (before.now ++ line ∷ []) (left reader.new) more rest → HeadRead before.now (left reader.old) (line ∷ more) rest) }
    ensures none { IfNone result (HeadRead before.now (left reader.old) [] (left reader.new)) }
    ensures next { IfSome result (λ line. (reader.new.line ≡ line_past reader.old.line 1 (left reader.old)) × (left reader.new ≡ drop 1 (left reader.old))) }
    ensures gone { IfSome result (λ line. GoneOn reader.old reader.new) }
    ensures same { IfNone result (reader.new ≡ reader.old) }
    ensures shorter { IfSome result (λ line. length reader.new.rest.now < length reader.old.rest.now) }
{
    let mut after = *reader;
    let line = read_head_line(after.next_said()?.text)?;
    if is_double(before, line) {
        return None;
    }
    *reader = after;
    Some(line)
}

/// Reads events, at most `limit`, each with the number of its line, into the lists that are lent, in place of what was
/// there. Answers why there are fewer, if there are.
#[tactic(auto, using(crate::proofs::Readings::one_more, text::proofs::GoingOn::gone_nowhere, text::proofs::GoingOn::gone_again, text::proofs::GoingOn::after_one_more))]
pub fn read_events(
    reader: &mut Reader<'_>,
    limit: usize,
    events: &mut Vec<Event>,
    lines: &mut Vec<u64>,
) -> Result<Option<Stop>, AllocError>
    ensures read { EventsRead (left reader.old) lines.new.items events.new.items (left reader.new) }
    ensures stopped { IfOk result (λ stop. Stopped stop limit events.new.items (left reader.new)) }
    ensures next { reader.new.line ≡ line_after reader.old.line lines.new.items }
    ensures gone { GoneOn reader.old reader.new }
    ensures full { OnErr result ((length events.new.items < limit) × (Full events.new ⊎ Full lines.new)) }
{
    events.clear();
    lines.clear();
    while events.len() < limit {
        events.reserve(1)?;
        lines.reserve(1)?;
        match next_event(reader) {
            Ok((line, event)) => {
                lines.push_reserved(line);
                events.push_reserved(event);
            }
            Err(stop) => return Ok(Some(stop)),
        }
    }
    Ok(None)
}

// Takes the next event, with the number of its line; or nothing, and why.
fn next_event(reader: &mut Reader<'_>) -> Result<(u64, Event), Stop>
    ensures ok { IfOk result (λ next. EventsRead (left reader.old) (next.0 ∷ []) (next.1 ∷ []) (left reader.new)) }
    ensures err { IfErr result (λ stop. (reader.new ≡ reader.old) × Ends stop (left reader.new)) }
    ensures next { IfOk result (λ next. (reader.new.line ≡ next.0 + 1) × GoneOn reader.old reader.new) }
{
    if let Some(event) = next_plain(reader) {
        return Ok(event);
    }
    let mut after = *reader;
    let Some(SaidLine { line, text }) = after.next_said() else {
        return Err(Stop::End);
    };
    let event = read_event(text).ok_or(Stop::Unreadable { line })?;
    *reader = after;
    Ok((line, event))
}

// Takes the next event where it stands as it would be written, at the beginning of what is left.
fn next_plain(reader: &mut Reader<'_>) -> Option<(u64, Event)>
    ensures some { IfSome result (λ next. EventsRead (left reader.old) (next.0 ∷ []) (next.1 ∷ []) (left reader.new)) }
    ensures none { IfNone result (reader.new ≡ reader.old) }
    ensures next { IfSome result (λ next. (reader.new.line ≡ next.0 + 1) × GoneOn reader.old reader.new) }
{
    let (event, rest) = plain_event(reader.rest.as_bytes())?;
    let read = reader.rest.len().saturating_sub(rest.len());
    let rest = reader.rest.get(read..)?;
    let line = reader.line;
    *reader = Reader {
        rest,
        line: line + 1,
    };
    Some((line, event))
}

// Whether a line of the head gives again what one of the lines gave.
fn is_double(lines: &[HeadLine], line: HeadLine) -> bool
    ensures { result ≡ is_double lines.now line }
{
    lines.iter().any(|before| line.gives_as(*before))
}
