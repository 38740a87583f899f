// A train in truth, as the definitions and the line speak of it.
use crate::unit::Onboard;

// Where the front really is, and the unit, which knows of that place only low and high.
#[derive(Clone, Copy, PartialEq, Eq, Debug)]
pub struct Train {
    pub front: u64,
    pub unit: Onboard,
}
