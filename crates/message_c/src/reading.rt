// Bytes as a message, in a struct that the caller lends.
ghost use Rattle.message.specs.Bytes.{received};
ghost use Rattle.message.specs.Numbers.{read_numbers};
ghost use Rattle.message_c.specs.Read.{read_answer, read_as};
ghost use Rattle.std.specs.Prelude.{◌≡◌, Err, Ok};

use crate::{GRANT, REPORT};
use braking::Refusal;
use message::Message;

// A message that was read, or why there is none. What does not apply is 0, so the caller need not prepare anything.
#[repr(C)]
#[derive(Clone, Copy)]
pub struct ReadMessage {
    // the refusal's number in the list, 0 where there is none, and where it applies
    pub refusal_number: u64,
    pub refusal_place: u64,
    // 1 for a report, 2 for a grant
    pub kind: u64,
    pub train: u64,
    pub place: u64,
}

// C passes the bytes as a pointer and then how many there are.
#[unsafe(no_mangle)]
pub extern "C" fn message_read(bytes: &[u8], answer: &mut ReadMessage)
    ensures value { answer.new ≡ read_as (received bytes.now) }
    ensures numbers { read_answer answer.new ≡ read_numbers bytes.now }
{
    *answer = match message::read(bytes) {
        Ok(message) => heard(message),
        Err(why) => turned_away(why),
    };
}

fn heard(message: Message) -> ReadMessage
    ensures { result ≡ read_as (Ok message) }
{
    let (kind, train, place) = match message {
        Message::Report { train, place } => (REPORT, train, place),
        Message::Grant { train, place } => (GRANT, train, place),
    };
    ReadMessage {
        refusal_number: 0,
        refusal_place: 0,
        kind,
        train,
        place,
    }
}

fn turned_away(why: Refusal) -> ReadMessage
    ensures { result ≡ read_as (Err why) }
{
    ReadMessage {
        refusal_number: why.number(),
        refusal_place: why.place(),
        kind: 0,
        train: 0,
        place: 0,
    }
}
