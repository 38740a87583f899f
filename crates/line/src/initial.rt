// How a day begins.
ghost use Rattle.line.specs.Initial.{Made, new_line, trains_checked, trains_of};
ghost use Rattle.braking.specs.Limits.{place_max};
ghost use Rattle.braking.specs.Refusals.{done};
ghost use Rattle.line.specs.Steps.{state};
ghost use Rattle.std.specs.Prelude.{◌≡◌, IfOk};

use crate::new_error::NewError;
use crate::parts::Parts;
use braking::limits::{PLACE_MAX, check_counts};
use braking::refusal::check;
use braking::{Brakes, Refusal};
use controller::Controller;
use onboard::{InitialTrain, Train};
use std::alloc::{AllocError, Global};

// Whether a day can begin so: brakes, counts and trains are looked at in this order.
fn check_initial(brakes: Brakes, trains: &[InitialTrain], controllers: usize) -> Result<(), Refusal>
    ensures { result ≡ done (new_line brakes trains.now controllers) }
{
    brakes.check()?;
    check_counts(trains.len(), controllers)?;
    check_trains(trains)
}

// The first train that does not fit behind the one ahead is refused.
#[tactic(auto, using(crate::proofs::Beginnings::checked_more))]
fn check_trains(trains: &[InitialTrain]) -> Result<(), Refusal>
    ensures { result ≡ trains_checked place_max 0 trains.now }
{
    let mut limit = PLACE_MAX;
    for (train, here) in trains.iter().enumerate() {
        let train = train as u64;
        check(here.fits(limit), Refusal::NotInitial { train })?;
        limit = here.front - here.length;
    }
    Ok(())
}

fn all_trains(
    alloc: Global,
    brakes: Brakes,
    trains: &[InitialTrain],
) -> Result<Vec<Train>, AllocError>
    ensures { IfOk result (λ v. v.items ≡ trains_of brakes 0 trains.now) }
{
    let mut on_line = Vec::with_capacity(alloc, trains.len())?;
    for (number, train) in trains.iter().enumerate() {
        on_line.push(train.train(brakes, number as u64))?;
    }
    Ok(on_line)
}

impl Parts {
    // The parts of a line on which nothing has happened yet.
    pub(crate) fn initial(
        alloc: Global,
        brakes: Brakes,
        trains: &[InitialTrain],
        controllers: usize,
    ) -> Result<Parts, NewError>
        ensures { Made state result brakes trains.now controllers }
    {
        check_initial(brakes, trains, controllers).map_err(NewError::Refused)?;
        let trains = all_trains(alloc, brakes, trains).map_err(|_| NewError::NoMemory)?;
        let controllers = vec![in alloc; Controller::new(); controllers].map_err(
            |_| NewError::NoMemory,
        )?;
        Ok(Parts {
            trains,
            controllers,
            sent: Vec::new(alloc),
        })
    }
}
