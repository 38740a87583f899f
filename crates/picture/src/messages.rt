//! What goes over the radio: sendings, hearings and takings.
ghost use Rattle.picture.specs.Messages.{ColumnShown, HeardMore, NoMessages, SentMore, ShownKept, earlier, place_said, with_hearing, with_sending};
ghost use Rattle.picture.specs.declared.sending.Sending.{Sending};
ghost use Rattle.std.specs.Prelude.{◌≡◌, ◌++◌, OnOk, None, Some, length, option_to_list, slice_get};

use crate::sending::{Hearing, Kind, Sending};
use message::format::MESSAGE_LENGTH;
use message::read;
use page::Scale;
use std::alloc::{AllocError, Global};

/// What is drawn of them. Where several come to one column of the picture, the earliest that was sent of each kind is.
#[derive(Drop)]
pub struct Messages {
    /// all, by number
    sent: Vec<Sending>,
    pub sendings: Vec<Sending>,
    pub hearings: Vec<Hearing>,
    /// how many hearings and takings there were
    pub heard: u64,
    column: Column,
}

/// Those of the column that is being drawn.
#[derive(Clone, Copy, PartialEq, Eq, Debug)]
struct Column {
    report_sent: Option<Sending>,
    words_sent: Option<Sending>,
    grant_sent: Option<Sending>,
    report_heard: Option<Hearing>,
    words_heard: Option<Hearing>,
    grant_heard: Option<Hearing>,
}

const EMPTY: Column = Column {
    report_sent: None,
    words_sent: None,
    grant_sent: None,
    report_heard: None,
    words_heard: None,
    grant_heard: None,
};

impl Messages {
    pub fn new(alloc: Global) -> Messages
        ensures { NoMessages result }
    {
        Messages {
            sent: Vec::new(alloc),
            sendings: Vec::new(alloc),
            hearings: Vec::new(alloc),
            heard: 0,
            column: EMPTY,
        }
    }

    /// How many were sent.
    pub fn count(&self) -> usize
        ensures { result ≡ length self.now.sent.items }
    {
        self.sent.len()
    }

    pub fn send(
        &mut self,
        scale: Scale,
        events: u64,
        kind: Kind,
        bytes: &[u8; MESSAGE_LENGTH],
    ) -> Result<(), AllocError>
        ensures sent { OnOk result (SentMore scale events kind bytes.now self.old self.new) }
        ensures heard { self.new.heard ≡ self.old.heard }
        ensures shown { ShownKept self.old self.new }
    {
        let place = place_said(bytes);
        let sending = Sending {
            number: self.count() as u64,
            kind,
            place,
            at: scale.point(events, place),
        };
        self.sent.push(sending)?;
        self.column = self.column.with_sending(sending);
        Ok(())
    }

    pub fn hear(&mut self, scale: Scale, events: u64, message: u64, taken: bool)
        ensures heard { (sending : Sending) → slice_get self.old.sent.items message ≡ Some sending →
            HeardMore scale events sending taken self.old self.new }
        ensures unknown { slice_get self.old.sent.items message ≡ None →
            (self.new.column ≡ self.old.column) × (self.new.heard ≡ self.old.heard) }
        ensures sent { self.new.sent.items ≡ self.old.sent.items }
        ensures shown { ShownKept self.old self.new }
    {
        let Some(sending) = self.sent.get(message as usize) else {
            return;
        };
        let sending = *sending;
        let hearing = Hearing::of(sending, scale, events, taken);
        self.heard = self.heard.saturating_add(1);
        self.column = self.column.with_hearing(hearing);
    }

    /// A column is over.
    pub fn draw(&mut self) -> Result<(), AllocError>
        ensures { OnOk result (ColumnShown self.old self.new) }
    {
        let column = self.column;
        push_some(&mut self.sendings, column.report_sent)?;
        push_some(&mut self.sendings, column.words_sent)?;
        push_some(&mut self.sendings, column.grant_sent)?;
        push_some(&mut self.hearings, column.report_heard)?;
        push_some(&mut self.hearings, column.words_heard)?;
        push_some(&mut self.hearings, column.grant_heard)?;
        self.column = EMPTY;
        Ok(())
    }
}

impl Column {
    fn with_sending(self, sending: Sending) -> Column
        ensures { result ≡ with_sending sending.kind self sending }
    {
        match sending.kind {
            Kind::Report => Column {
                report_sent: self.report_sent.or(Some(sending)),
                ..self
            },
            Kind::Words => Column {
                words_sent: self.words_sent.or(Some(sending)),
                ..self
            },
            Kind::Grant => Column {
                grant_sent: self.grant_sent.or(Some(sending)),
                ..self
            },
        }
    }

    fn with_hearing(self, hearing: Hearing) -> Column
        ensures { result ≡ with_hearing hearing.sending.kind self hearing }
    {
        match hearing.sending.kind {
            Kind::Report => Column {
                report_heard: earlier(self.report_heard, hearing),
                ..self
            },
            Kind::Words => Column {
                words_heard: earlier(self.words_heard, hearing),
                ..self
            },
            Kind::Grant => Column {
                grant_heard: earlier(self.grant_heard, hearing),
                ..self
            },
        }
    }
}

/// Of two hearings that of the earlier message, and of one message the first.
fn earlier(first: Option<Hearing>, next: Hearing) -> Option<Hearing>
    ensures { result ≡ earlier first next }
{
    match first {
        Some(first) if first.sending.number <= next.sending.number => Some(first),
        _ => Some(next),
    }
}

fn push_some<T: Copy>(list: &mut Vec<T>, next: Option<T>) -> Result<(), AllocError>
    ensures { OnOk result (list.new.items ≡ list.old.items ++ option_to_list next) }
{
    if let Some(next) = next {
        list.push(next)?;
    }
    Ok(())
}

/// The place that a message says, and 0 where the bytes cannot be read.
fn place_said(bytes: &[u8]) -> u64
    ensures { result ≡ place_said bytes.now }
{
    match read(bytes) {
        Ok(message) => message.place(),
        Err(_) => 0,
    }
}
