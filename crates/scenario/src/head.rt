// How a day begins.
ghost use Rattle.scenario.specs.Heads.{brakes_of, controllers_of, trains_of};
ghost use Rattle.std.specs.Prelude.{◌≡◌, ◌<◌, IfOk, OnErr, length};

use crate::entry::HeadLine;
use braking::Brakes;
use onboard::InitialTrain;
use std::alloc::{AllocError, Global};

#[derive(Drop)]
pub struct Head {
    pub brakes: Brakes,
    pub controllers: u64,
    pub trains: Vec<InitialTrain>,
}

impl Head {
    // What the lines of a head give.
    pub fn of(alloc: Global, lines: &[HeadLine]) -> Result<Head, AllocError>
        ensures brakes { IfOk result (λ head. head.brakes ≡ brakes_of lines.now) }
        ensures controllers { IfOk result (λ head. head.controllers ≡ controllers_of lines.now) }
        ensures trains { IfOk result (λ head. head.trains.items ≡ trains_of lines.now) }
        ensures full { OnErr result (0 < length (trains_of lines.now)) }
    {
        let mut brakes = Brakes {
            brake: 0,
            blur: 101,
        };
        let mut controllers = 8;
        let mut trains = Vec::new(alloc);
        for line in lines {
            match *line {
                HeadLine::Brake(brake) => brakes.brake = brake,
                HeadLine::Blur(blur) => brakes.blur = blur,
                HeadLine::Controllers(given) => controllers = given,
                HeadLine::Train(standing) => trains.push(standing)?,
            }
        }
        Ok(Head {
            brakes,
            controllers,
            trains,
        })
    }
}
