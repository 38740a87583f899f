// A controller's end of the radio: bytes that come to it, and its words and grants as bytes.
ghost use Rattle.braking.specs.Refusals.{done, kept};
ghost use Rattle.radio.specs.Ends.{after_hearing, grant_bytes, tell_bytes};
ghost use Rattle.std.specs.Prelude.{◌≡◌};

use braking::Refusal;
use controller::Controller;
use message::format::MESSAGE_LENGTH;
use message::read;

// Bytes have come: the controller hears the message that they are.
pub fn hear(mut controller: Controller, bytes: &[u8]) -> (Controller, Result<(), Refusal>)
    ensures state { result.0 ≡ kept controller (after_hearing controller bytes.now) }
    ensures word { result.1 ≡ done (after_hearing controller bytes.now) }
{
    let word = hear_in_place(&mut controller, bytes);
    (controller, word)
}

// The same where the controller lies, which is not copied.
pub fn hear_in_place(controller: &mut Controller, bytes: &[u8]) -> Result<(), Refusal>
    ensures state { controller.new ≡ kept controller.old (after_hearing controller.old bytes.now) }
    ensures word { result ≡ done (after_hearing controller.old bytes.now) }
{
    controller.hear_in_place(read(bytes)?)
}

// What it knows of a train, as the bytes of a report.
pub fn tell(
    controller: Controller,
    train: u64,
) -> (Controller, Result<[u8; MESSAGE_LENGTH], Refusal>)
    ensures state { result.0 ≡ controller }
    ensures word { result.1 ≡ tell_bytes controller train }
{
    (controller, told(&controller, train))
}

// What it knows of a train, as the bytes of a grant to the train behind.
pub fn grant(
    controller: Controller,
    train: u64,
) -> (Controller, Result<[u8; MESSAGE_LENGTH], Refusal>)
    ensures state { result.0 ≡ controller }
    ensures word { result.1 ≡ grant_bytes controller train }
{
    (controller, granted(&controller, train))
}

// What `tell` answers.
pub fn told(controller: &Controller, train: u64) -> Result<[u8; MESSAGE_LENGTH], Refusal>
    ensures { result ≡ tell_bytes controller.now train }
{
    controller.told(train)?.write()
}

// What `grant` answers.
pub fn granted(controller: &Controller, train: u64) -> Result<[u8; MESSAGE_LENGTH], Refusal>
    ensures { result ≡ grant_bytes controller.now train }
{
    controller.granted(train)?.write()
}
