// What a unit says to its driver.
#[derive(Clone, Copy, PartialEq, Eq, Debug)]
pub enum Word {
    // the driver may have the wish
    Drive,
    // the unit brakes
    Brake,
}
