// A message as bytes, in a struct that the caller lends.
ghost use Rattle.braking.specs.Refusals.{and_then};
ghost use Rattle.message.specs.Bytes.{written};
ghost use Rattle.message_c.specs.Written.{message_of, write_numbers, written_answer, written_as};
ghost use Rattle.std.specs.Prelude.{◌≡◌, Err, Ok};

use crate::{GRANT, REPORT};
use braking::Refusal;
use braking::refusal::check;
use message::Message;
use message::format::MESSAGE_LENGTH;

// The bytes that were written, or why there are none. What does not apply is 0, so the caller need not prepare anything.
#[repr(C)]
#[derive(Clone, Copy)]
pub struct WrittenMessage {
    // the refusal's number in the list, 0 where there is none, and where it applies
    pub refusal_number: u64,
    pub refusal_place: u64,
    pub bytes: [u8; MESSAGE_LENGTH],
}

// The kind is looked at before the train and the place, as in bytes that are read.
#[unsafe(no_mangle)]
pub extern "C" fn message_write(kind: u64, train: u64, place: u64, answer: &mut WrittenMessage)
    ensures value { answer.new ≡ written_as (and_then (message_of kind train place) written) }
    ensures numbers { written_answer answer.new ≡ write_numbers kind train place }
{
    *answer = match message_of(kind, train, place).and_then(Message::write) {
        Ok(bytes) => made(bytes),
        Err(why) => turned_away(why),
    };
}

// No `match` with three arms: compiled, it made each report wait for the message before it.
fn message_of(kind: u64, train: u64, place: u64) -> Result<Message, Refusal>
    ensures { result ≡ message_of kind train place }
{
    check(kind == REPORT || kind == GRANT, Refusal::FirstByte)?;
    Ok(if kind == REPORT {
        Message::Report { train, place }
    } else {
        Message::Grant { train, place }
    })
}

fn made(bytes: [u8; MESSAGE_LENGTH]) -> WrittenMessage
    ensures { result ≡ written_as (Ok bytes) }
{
    WrittenMessage {
        refusal_number: 0,
        refusal_place: 0,
        bytes,
    }
}

fn turned_away(why: Refusal) -> WrittenMessage
    ensures { result ≡ written_as (Err why) }
{
    WrittenMessage {
        refusal_number: why.number(),
        refusal_place: why.place(),
        bytes: [0; MESSAGE_LENGTH],
    }
}
