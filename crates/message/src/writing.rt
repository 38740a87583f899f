// A message as bytes.
ghost use Rattle.message.specs.Messages.{kind_of};
ghost use Rattle.message.specs.Bytes.{received, written};
ghost use Rattle.message.specs.Changes.{FewChangesFound};
ghost use Rattle.message.specs.Numbers.{numbers_written, written_numbers};
ghost use Rattle.std.specs.Prelude.{◌≡◌, IfOk, Ok};

use crate::format::{GRANT, MESSAGE_LENGTH, REPORT};
use crate::message::Message;
use braking::Refusal;
use crc::crc32;

impl Message {
    // Its bytes, which are read as this message. With one to seven of their bits changed on the way they are turned away for
    // their check. No `TryFrom`, for the reason that `read` has.
    pub fn write(self) -> Result<[u8; MESSAGE_LENGTH], Refusal>
        ensures value { result ≡ written self }
        ensures numbers { numbers_written result ≡ written_numbers self }
        ensures heard { IfOk result (λ bytes. received bytes ≡ Ok self) }
        ensures changed { IfOk result FewChangesFound }
    {
        self.encoded()
    }

    fn encoded(self) -> Result<[u8; MESSAGE_LENGTH], Refusal>
        ensures { result ≡ written self }
    {
        self.check()?;
        let kind = self.kind();
        let train = self.train() as u8;
        let [p0, p1, p2, p3] = (self.place() as u32).to_le_bytes();
        let [c0, c1, c2, c3] = crc32(&[kind, train, 0, 0, p0, p1, p2, p3]).to_le_bytes();
        Ok([kind, train, 0, 0, p0, p1, p2, p3, c0, c1, c2, c3])
    }

    fn kind(self) -> u8
        ensures { result ≡ kind_of self }
    {
        match self {
            Message::Report { .. } => REPORT,
            Message::Grant { .. } => GRANT,
        }
    }
}
