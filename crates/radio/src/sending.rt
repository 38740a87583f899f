// A message on its way out.
ghost use Rattle.braking.specs.Refusals.{and_then};
ghost use Rattle.message.specs.Bytes.{written};
ghost use Rattle.std.specs.Prelude.{◌≡◌};

use braking::Refusal;
use message::Message;
use message::format::MESSAGE_LENGTH;

// What a step hands back, with its message as bytes.
pub fn sent<S>(said: (S, Result<Message, Refusal>)) -> (S, Result<[u8; MESSAGE_LENGTH], Refusal>)
    ensures state { result.0 ≡ said.0 }
    ensures word { result.1 ≡ and_then said.1 written }
{
    let (state, message) = said;
    (state, message.and_then(Message::write))
}
