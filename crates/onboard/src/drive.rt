// The unit's rule on bare numbers.
ghost use Rattle.onboard.specs.Rule.{Needed, first_refusal, word_listed, word_on};
ghost use Rattle.onboard.specs.declared.word.Word.TheVariants.{Brake};
ghost use Rattle.std.specs.Prelude.{◌≡◌, Ok};

use crate::unit::Onboard;
use crate::word::Word;
use braking::{Brakes, Refusal};

// May the driver of a train whose front is at most at `high` and may go to `end` have `wish`?
pub fn may_drive(brake: u64, blur: u64, high: u64, end: u64, wish: u64) -> Result<Word, Refusal>
    ensures word { result ≡ word_on (record { brake = brake; blur = blur }) high end wish }
    ensures refusal { word_listed result ≡ first_refusal brake blur high end wish }
    ensures need { result ≡ Ok Brake → Needed (record { brake = brake; blur = blur }) high end wish }
{
    // The word of any unit that brakes so, with this high place and end, depends on nothing else.
    let unit = Onboard {
        train: 0,
        brakes: Brakes { brake, blur },
        length: 0,
        speed: 0,
        low: 0,
        high,
        end,
    };
    unit.ask(wish).1
}
