//! A picture of a day while it is drawn, event after event.
ghost use Rattle.picture.specs.Drawings.{Begun, Heard, LinesKept, OneMore, Sent, SinceKept, column_of, kind_sent, nearest_of, noted, restarted, ticks_after};
ghost use Rattle.picture.specs.Messages.{ColumnShown};
ghost use Rattle.picture.specs.Tracks.{AllDrawn, NoneDrawn, forgotten, since_at, MarkedIf};
ghost use Rattle.std.specs.Prelude.{◌≡◌, IfOk, OnOk, false};

use crate::extent::Extent;
use crate::messages::Messages;
use crate::nearest::{Gap, smallest_gap};
use crate::sending::Kind;
use crate::track::{Since, Track, mark_if};
use message::format::MESSAGE_LENGTH;
use onboard::{Train, Word};
use page::{Point, Scale, round_step};
use safety::Event;
use std::alloc::{AllocError, Global};

/// The most columns that a picture has, and how many points of trains in all.
const COLUMNS: u64 = 1_290;

const POINTS: u64 = 25_600;

/// How many uprights the grid has at most.
const MOMENTS: u64 = 12;

/// The smallest gap so far, and after how many events it came.
#[derive(Clone, Copy, PartialEq, Eq, Debug)]
pub struct Nearest {
    pub gap: Gap,
    pub events: u64,
}

/// How many ticks there were among so many events.
#[derive(Clone, Copy, PartialEq, Eq, Debug)]
pub struct Moment {
    pub events: u64,
    pub ticks: u64,
}

#[derive(Drop)]
pub struct Drawing {
    pub scale: Scale,
    pub columns: u64,
    /// how many events were drawn, and how many of them are ticks
    pub events: u64,
    pub ticks: u64,
    pub tracks: Vec<Track>,
    pub messages: Messages,
    /// where controllers restarted
    pub restarts: Vec<Point>,
    pub nearest: Option<Nearest>,
    /// after round numbers of events
    pub moments: Vec<Moment>,
    step: u64,
    since: Vec<Since>,
    /// a controller did since lines were drawn on
    restarted: bool,
}

const NOTHING: Since = Since {
    braked: false,
    marked: false,
};

impl Drawing {
    /// A picture of a day that will have this extent, with the trains as they stand at its beginning.
    pub fn new(alloc: Global, extent: Extent, trains: &[Train]) -> Result<Drawing, AllocError>
        ensures { IfOk result (Begun extent trains.now) }
    {
        let most = POINTS / (trains.len() as u64).max(1);
        let mut drawing = Drawing {
            scale: extent.scale(),
            columns: extent.events.min(COLUMNS).min(most),
            events: 0,
            ticks: 0,
            tracks: new_tracks(alloc, trains.len())?,
            messages: Messages::new(alloc),
            restarts: Vec::new(alloc),
            nearest: None,
            moments: Vec::new(alloc),
            step: round_step(extent.events, MOMENTS),
            since: vec![in alloc; NOTHING; trains.len()]?,
            restarted: false,
        };
        drawing.note_moment()?;
        drawing.draw(trains)?;
        Ok(drawing)
    }

    /// The event is over: the word that a unit said to it, the trains as they are now, and all that was sent.
    pub fn after(
        &mut self,
        event: Event,
        word: Option<Word>,
        trains: &[Train],
        sent: &[[u8; MESSAGE_LENGTH]],
    ) -> Result<(), AllocError>
        ensures { OnOk result (OneMore event word trains.now sent.now self.old self.new) }
    {
        let before = self.column();
        self.events = self.events.saturating_add(1);
        self.note(event, word);
        self.note_moment()?;
        self.note_sent(event, sent)?;
        self.nearest = nearer(self.nearest, smallest_gap(trains), self.events);
        if self.column() == before {
            return Ok(());
        }
        self.draw(trains)?;
        Ok(())
    }

    /// What the event did, but for what it sent.
    fn note(&mut self, event: Event, word: Option<Word>)
        ensures lines { LinesKept self.old self.new }
        ensures since { self.new.since.items ≡ noted event word self.old.since.items }
        ensures restarted { self.new.restarted ≡ restarted event self.old.restarted }
        ensures ticks { self.new.ticks ≡ ticks_after event self.old.ticks }
        ensures heard { Heard event self.old.scale self.old.events
            self.old.messages self.new.messages }
    {
        match event {
            Event::Tick { train, .. } => {
                self.ticks = self.ticks.saturating_add(1);
                if let (Some(since), Some(Word::Brake)) = (
                    self.since.get_mut(train as usize),
                    word,
                ) {
                    since.braked = true;
                }
            }
            Event::Mark { train } => {
                if let Some(since) = self.since.get_mut(train as usize) {
                    since.marked = true;
                }
            }
            Event::Hear { message, .. } => {
                self.messages.hear(self.scale, self.events, message, false)
            }
            Event::Take { message } => self.messages.hear(self.scale, self.events, message, true),
            Event::Restart { .. } => self.restarted = true,
            Event::Report { .. } | Event::Tell { .. } | Event::Grant { .. } => {}
        }
    }

    /// What the event sent, if it did.
    fn note_sent(&mut self, event: Event, sent: &[[u8; MESSAGE_LENGTH]]) -> Result<(), AllocError>
        ensures lines { OnOk result (LinesKept self.old self.new) }
        ensures since { OnOk result (SinceKept self.old self.new) }
        ensures sent { OnOk result (Sent event self.old.scale self.old.events sent.now
            self.old.messages self.new.messages) }
    {
        let Some(kind) = kind_sent(event) else {
            return Ok(());
        };
        let Some(bytes) = sent.get(self.messages.count()) else {
            return Ok(());
        };
        self.messages.send(self.scale, self.events, kind, bytes)
    }

    fn note_moment(&mut self) -> Result<(), AllocError>
        ensures lines { OnOk result (LinesKept self.old self.new) }
        ensures since { OnOk result (SinceKept self.old self.new) }
        ensures messages { self.new.messages ≡ self.old.messages }
    {
        if self.events.is_multiple_of(self.step) {
            self.moments.push(Moment {
                events: self.events,
                ticks: self.ticks,
            })?;
        }
        Ok(())
    }

    /// The column of the picture that the last event is in.
    fn column(&self) -> u64
        ensures { result ≡ column_of self.now }
    {
        let events = self.events.min(self.scale.steps) as u128;
        (events * self.columns as u128 / self.scale.steps.max(1) as u128) as u64
    }

    /// Draws the lines of all trains on to where they are, and what came by radio.
    fn draw(&mut self, trains: &[Train]) -> Result<(), AllocError>
        ensures events { self.new.events ≡ self.old.events }
        ensures ticks { self.new.ticks ≡ self.old.ticks }
        ensures scale { self.new.scale ≡ self.old.scale }
        ensures columns { self.new.columns ≡ self.old.columns }
        ensures nearest { self.new.nearest ≡ self.old.nearest }
        ensures tracks { OnOk result (AllDrawn self.old.scale self.old.events trains.now
            self.old.since.items self.new.since.items self.old.tracks.items self.new.tracks.items) }
        ensures restarts { OnOk result (MarkedIf self.old.restarted self.old.scale self.old.events 0
            self.old.restarts.items self.new.restarts.items) }
        ensures restarted { OnOk result (self.new.restarted ≡ false) }
        ensures messages { OnOk result (ColumnShown self.old.messages self.new.messages) }
    {
        draw_tracks(
            &mut self.tracks,
            &mut self.since,
            self.scale,
            self.events,
            trains,
        )?;
        mark_if(
            self.restarted,
            &mut self.restarts,
            self.scale,
            self.events,
            0,
        )?;
        self.restarted = false;
        self.messages.draw()
    }

    /// Draws the trains of a day without events as they stand, from one edge to the other.
    pub fn stand(&mut self, trains: &[Train]) -> Result<(), AllocError>
        ensures { OnOk result (AllDrawn self.old.scale 1 trains.now
            self.old.since.items self.new.since.items self.old.tracks.items self.new.tracks.items) }
    {
        draw_tracks(&mut self.tracks, &mut self.since, self.scale, 1, trains)
    }
}

fn new_tracks(alloc: Global, count: usize) -> Result<Vec<Track>, AllocError>
    ensures { IfOk result (λ tracks. NoneDrawn count tracks.items) }
{
    let mut tracks = Vec::with_capacity(alloc, count)?;
    for _ in 0..count {
        tracks.push(Track::new(alloc))?;
    }
    Ok(tracks)
}

fn draw_tracks(
    tracks: &mut Vec<Track>,
    since: &mut Vec<Since>,
    scale: Scale,
    events: u64,
    trains: &[Train],
) -> Result<(), AllocError>
    ensures { OnOk result (AllDrawn scale events trains.now
        since.old.items since.new.items tracks.old.items tracks.new.items) }
{
    for number in 0..tracks.len().min(trains.len()) {
        let happened = take_since(since, number);
        tracks[number].draw(scale, events, &trains[number], happened)?;
    }
    Ok(())
}

/// What happened to a train since its lines were drawn on; from now on it is nothing.
fn take_since(since: &mut Vec<Since>, number: usize) -> Since
    ensures happened { result ≡ since_at since.old.items number }
    ensures left { since.new.items ≡ forgotten since.old.items number }
{
    match since.get_mut(number) {
        Some(since) => {
            let happened = *since;
            *since = NOTHING;
            happened
        }
        None => NOTHING,
    }
}

/// The smallest gap so far, after one look more.
fn nearer(nearest: Option<Nearest>, gap: Option<Gap>, events: u64) -> Option<Nearest>
    ensures { result ≡ nearest_of nearest gap events }
{
    let Some(gap) = gap else {
        return nearest;
    };
    match nearest {
        Some(nearest) if nearest.gap.size() <= gap.size() => Some(nearest),
        _ => Some(Nearest { gap, events }),
    }
}

/// What an event sends, if it does.
fn kind_sent(event: Event) -> Option<Kind>
    ensures { result ≡ kind_sent event }
{
    match event {
        Event::Report { .. } => Some(Kind::Report),
        Event::Tell { .. } => Some(Kind::Words),
        Event::Grant { .. } => Some(Kind::Grant),
        _ => None,
    }
}
