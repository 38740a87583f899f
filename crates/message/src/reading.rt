// Bytes as a message.
ghost use Rattle.message.specs.Bytes.{received, written};
ghost use Rattle.message.specs.Numbers.{numbers_message, read_numbers};
ghost use Rattle.std.specs.Prelude.{◌≡◌, Ok};

use crate::format::{CHECKED_LENGTH, GRANT, MESSAGE_LENGTH, REPORT};
use crate::message::Message;
use braking::Refusal;
use braking::refusal::check;
use crc::crc32;

// The message that is heard in the bytes, or why they are turned away. They are taken for a message only where they are just
// the bytes that writing it gives. No `TryFrom`: its contract would be one clause, where three with names say more.
pub fn read(bytes: &[u8]) -> Result<Message, Refusal>
    ensures value { result ≡ received bytes.now }
    ensures numbers { numbers_message result ≡ read_numbers bytes.now }
    ensures only { (m : Message) → result ≡ Ok m → written m ≡ Ok bytes.now }
{
    received(bytes)
}

fn received(bytes: &[u8]) -> Result<Message, Refusal>
    ensures { result ≡ received bytes.now }
{
    let length = bytes.len();
    let [kind, train, third, fourth, p0, p1, p2, p3, c0, c1, c2, c3] =
        <[u8; MESSAGE_LENGTH]>::try_from(bytes).map_err(|_| Refusal::MessageLength { length })?;
    check(
        u32::from_le_bytes([c0, c1, c2, c3]) == crc32(&bytes[..CHECKED_LENGTH]),
        Refusal::MessageCheck,
    )?;
    let train = u64::from(train);
    let place = u64::from(u32::from_le_bytes([p0, p1, p2, p3]));
    check(kind == REPORT || kind == GRANT, Refusal::FirstByte)?;
    let message = if kind == REPORT {
        Message::Report { train, place }
    } else {
        Message::Grant { train, place }
    };
    check(third == 0, Refusal::ThirdByte)?;
    check(fourth == 0, Refusal::FourthByte)?;
    message.check()?;
    Ok(message)
}
