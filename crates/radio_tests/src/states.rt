// Units and controllers that the tests share.
ghost use Rattle.controller.specs.Hearings.{after_hearings};
ghost use Rattle.controller.specs.Steps.{silent};
ghost use Rattle.message.specs.declared.message.Message.TheVariants.{Report};
ghost use Rattle.std.specs.Prelude.{◌≡◌, [], ◌∷◌};

use braking::Brakes;
use controller::Controller;
use message::Message;
use onboard::Onboard;

pub const FARTHEST: u64 = 1_000_000_000;

// The first and the second train of a line, as a day begins.
pub const FIRST: Onboard = Onboard {
    train: 0,
    brakes: Brakes { brake: 3, blur: 1 },
    length: 100,
    speed: 0,
    low: 500,
    high: 500,
    end: 2_000,
};

pub const SECOND: Onboard = Onboard {
    train: 1,
    brakes: Brakes { brake: 3, blur: 1 },
    length: 80,
    speed: 0,
    low: 380,
    high: 380,
    end: 398,
};

// A controller that heard these places of trains 0 and 63.
pub fn heard(first: u64, last: u64) -> Controller
    ensures { result ≡ after_hearings silent (Report 0 first ∷ Report 63 last ∷ []) }
{
    let report = Message::Report {
        train: 0,
        place: first,
    };
    let controller = Controller::new().hear(report).0;
    controller
        .hear(Message::Report {
            train: 63,
            place: last,
        })
        .0
}
