//! Plays the text of a scenario.
ghost use Rattle.play.specs.Played.{Played, PlayedTo};
ghost use Rattle.line.specs.Initial.{new_line};
ghost use Rattle.line.specs.Steps.{state};
ghost use Rattle.scenario.specs.declared.entry.HeadLine.{HeadLine};
ghost use Rattle.scenario.specs.Heads.{brakes_of, controllers_of, trains_of};
ghost use Rattle.scenario.specs.declared.lines.Stop.TheVariants.{End};
ghost use Rattle.text.specs.Lines.{left};
ghost use Rattle.std.specs.Prelude.{◌≡◌, ◌<◌, ◌≤◌, ℕ, List, [], None, IfNone, IfOk, IfSome, Ok, length};

use crate::refusal::{Reason, Refused};
use braking::Refusal;
use braking::limits::PLACE_MAX;
use line::{Gaps, Line, NewError, Seen, StepError};
use onboard::InitialTrain;
use reasons::{misplaced_by, why_not};
use safety::Event;
use scenario::{Head, HeadLine, Stop, explain, read_events, read_head, read_head_line};
use std::alloc::{AllocError, Global};
use std::io;
use text::Reader;

#[derive(Drop)]
pub enum PlayError<'a> {
    Refused(Refused<'a>),
    NoMemory,
    Output(io::Error),
}

impl<'a> From<AllocError> for PlayError<'a> {
    fn from(_: AllocError) -> Self {
        PlayError::NoMemory
    }
}

impl<'a> From<io::Error> for PlayError<'a> {
    fn from(error: io::Error) -> Self {
        PlayError::Output(error)
    }
}

/// The events of a piece, in which lines they stand, what is seen of their ticks, and what gaps there were.
#[derive(Drop)]
pub struct Piece {
    pub events: Vec<Event>,
    pub lines: Vec<u64>,
    pub seen: Vec<Seen>,
    pub gaps: Gaps,
}

/// Somebody who looks on while a text is played.
pub trait Watcher {
    // how many events are played before it looks again
    fn piece_size(&self) -> usize;

    // The head was read, and no event is done.
    fn begin<'a>(&mut self, line: &Line) -> Result<(), PlayError<'a>>;

    // The events of the piece were done, and no other since. A piece is empty where there is no event more, or its
    // first is refused.
    fn look<'a>(&mut self, line: &Line, piece: &Piece) -> Result<(), PlayError<'a>>;
}

/// Somebody who is told how much of a text was played.
pub trait Progress {
    // So many bytes of so many were.
    fn tell(&mut self, done: usize, all: usize) -> io::Result<()>;
}

/// Plays a text before a watcher.
#[tactic(auto, using(crate::proofs::Pieces::nothing_played))]
pub fn play<'a, W: Watcher, P: Progress>(
    alloc: Global,
    text: &'a str,
    watcher: &mut W,
    progress: &mut P,
) -> Result<Gaps, PlayError<'a>>
    ensures { IfOk result (λ gaps. Played text.now gaps) }
{
    let mut reader = Reader::new(text);
    let head = read_head(&mut reader, alloc)?;
    let mut line = new_line(alloc, &head)?;
    watcher.begin(&line)?;
    let size = watcher.piece_size().max(1);
    let mut gaps = Gaps {
        count: 0,
        smallest: None,
    };
    let mut piece = Piece {
        events: Vec::with_capacity(alloc, size)?,
        lines: Vec::with_capacity(alloc, size)?,
        seen: Vec::with_capacity(alloc, size)?,
        gaps,
    };
    loop {
        let played = play_piece(&mut reader, &mut line, &mut piece, size, gaps);
        watcher.look(&line, &piece)?;
        let Some(more) = played? else {
            return Ok(gaps);
        };
        gaps = more;
        let done = text.len().saturating_sub(reader.bytes_left());
        progress.tell(done, text.len())?;
    }
}

// Plays the next events of a text, as many as a piece has, by `Line::run`, whose contract says what holds after each
// of them. Answers what gaps there were so far, or nothing where there is no event more.
fn play_piece<'a>(
    reader: &mut Reader<'a>,
    line: &mut Line,
    piece: &mut Piece,
    size: usize,
    gaps: Gaps,
) -> Result<Option<Gaps>, PlayError<'a>>
    requires { 1 ≤ size }
    ensures some { IfOk result (λ more. IfSome more (λ more. (text : List ℕ) (head : List HeadLine) →
        PlayedTo text head (left reader.old) (state line.old.parts) gaps → PlayedTo text head (left reader.new) (state line.new.parts) more)) }
    ensures none { IfOk result (λ more. IfNone more (left reader.old ≡ [])) }
    ensures less { IfOk result (λ more. IfSome more (λ _. length (left reader.new) < length (left reader.old))) }
{
    piece.events.clear();
    piece.lines.clear();
    piece.seen.clear();
    let stop = read_events(reader, size, &mut piece.events, &mut piece.lines)?;
    let items = piece.events.as_slice();
    if items.is_empty() {
        return no_more(*reader, stop);
    }
    let run = line.run(items, &mut piece.seen);
    piece.gaps = run.gaps;
    match run.stop {
        Some(error) => {
            let why = stopped(line, items, &piece.lines, run.done, error);
            piece.events.truncate(run.done);
            Err(why)
        }
        None => Ok(Some(gaps.and(run.gaps))),
    }
}

// Why there is no event more: at the end of the text there is nothing wrong with that.
fn no_more<'a>(reader: Reader<'a>, stop: Option<Stop>) -> Result<Option<Gaps>, PlayError<'a>>
    ensures { IfOk result (λ more. (more ≡ None) × IfSome stop (λ stop. stop ≡ End)) }
{
    match stop {
        Some(Stop::Unreadable { line }) => Err(unreadable(reader, line)),
        _ => Ok(None),
    }
}

// A line as the head gives it, or why no day can begin so.
fn new_line<'a>(alloc: Global, lines: &[HeadLine]) -> Result<Line, PlayError<'a>>
    ensures { IfOk result (λ line. new_line (brakes_of lines.now) (trains_of lines.now) (controllers_of lines.now) ≡ Ok (state line.parts)) }
{
    let head = Head::of(alloc, lines)?;
    match Line::new(alloc, head.brakes, &head.trains, head.controllers as usize) {
        Ok(line) => Ok(line),
        Err(NewError::NoMemory) => Err(PlayError::NoMemory),
        Err(NewError::Refused(refusal)) => Err(PlayError::Refused(Refused {
            line: None,
            refusal,
            reason: why_not_begin(&head.trains, refusal),
        })),
    }
}

fn why_not_begin<'a>(trains: &[InitialTrain], refusal: Refusal) -> Reason<'a> {
    let Refusal::NotInitial { train } = refusal else {
        return Reason::Listed;
    };
    let Some(here) = trains.get(train as usize) else {
        return Reason::Listed;
    };
    let limit = match (train as usize).checked_sub(1) {
        None => PLACE_MAX,
        Some(ahead) => trains[ahead].front.saturating_sub(trains[ahead].length),
    };
    match misplaced_by(*here, limit) {
        Some(wrong) => Reason::Misplaced(wrong),
        None => Reason::Listed,
    }
}

// Why a run ended before the last of the events.
fn stopped<'a>(
    line: &Line,
    events: &[Event],
    lines: &[u64],
    done: usize,
    error: StepError,
) -> PlayError<'a> {
    let (StepError::Impossible, Some(event), Some(at)) = (error, events.get(done), lines.get(done))
    else {
        return PlayError::NoMemory;
    };
    let reason = match why_not(line, *event) {
        Some(why) => Reason::WhyNot(why),
        None => Reason::Listed,
    };
    PlayError::Refused(Refused::at_line(*at, reason))
}

// Why the next line, of this number, cannot be read as an event.
fn unreadable<'a>(mut reader: Reader<'a>, line: u64) -> PlayError<'a> {
    let Some(said) = reader.next_said() else {
        return PlayError::Refused(Refused::at_line(line, Reason::Listed));
    };
    let reason = match (read_head_line(said.text), explain(said.text)) {
        (Some(head), _) => Reason::AfterHead(head),
        (None, Some(fault)) => Reason::Fault(fault),
        (None, None) => Reason::Listed,
    };
    PlayError::Refused(Refused::at_line(line, reason))
}
