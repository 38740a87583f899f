// What a message says, and which messages there can be.
ghost use Rattle.message.specs.Messages.{message_checked, place_of, train_of};
ghost use Rattle.std.specs.Prelude.{◌≡◌};

use braking::Refusal;
use braking::limits::{check_place, check_train};
use braking::refusal::check;

#[derive(Clone, Copy, PartialEq, Eq, Debug)]
pub enum Message {
    // the rear of the train is not behind the place
    Report { train: u64, place: u64 },
    // the front of the train may go as far as the place
    Grant { train: u64, place: u64 },
}

impl Message {
    pub fn train(self) -> u64
        ensures { result ≡ train_of self }
    {
        match self {
            Message::Report { train, .. } | Message::Grant { train, .. } => train,
        }
    }

    pub fn place(self) -> u64
        ensures { result ≡ place_of self }
    {
        match self {
            Message::Report { place, .. } | Message::Grant { place, .. } => place,
        }
    }

    // Passes where there can be such a message; its train is looked at before its place.
    pub fn check(self) -> Result<(), Refusal>
        ensures { result ≡ message_checked self }
    {
        check_train(self.train())?;
        check(
            !matches!(self, Message::Grant { train: 0, .. }),
            Refusal::GrantToForemost,
        )?;
        check_place(self.place())
    }
}
