// A lent controller: bytes that come, its words and grants as bytes, and a restart.
ghost use Rattle.braking.specs.Refusals.{done, kept};
ghost use Rattle.controller.specs.Steps.{silent};
ghost use Rattle.radio.specs.Ends.{after_hearing, grant_bytes, tell_bytes};
ghost use Rattle.std.specs.Prelude.{◌≡◌};

use braking::Refusal;
use controller::Controller;
use message::format::MESSAGE_LENGTH;

pub fn hear(controller: &mut Controller, bytes: &[u8]) -> Result<(), Refusal>
    ensures state { controller.new ≡ kept controller.old (after_hearing controller.old bytes.now) }
    ensures word { result ≡ done (after_hearing controller.old bytes.now) }
{
    let (next, word) = radio::hear(*controller, bytes);
    *controller = next;
    word
}

pub fn tell(controller: &mut Controller, train: u64) -> Result<[u8; MESSAGE_LENGTH], Refusal>
    ensures state { controller.new ≡ controller.old }
    ensures word { result ≡ tell_bytes controller.old train }
{
    let (next, word) = radio::tell(*controller, train);
    *controller = next;
    word
}

pub fn grant(controller: &mut Controller, train: u64) -> Result<[u8; MESSAGE_LENGTH], Refusal>
    ensures state { controller.new ≡ controller.old }
    ensures word { result ≡ grant_bytes controller.old train }
{
    let (next, word) = radio::grant(*controller, train);
    *controller = next;
    word
}

pub fn restart(controller: &mut Controller)
    ensures state { controller.new ≡ silent }
    ensures word { result ≡ tt }
{
    let (next, word) = controller.restart();
    *controller = next;
    word
}
