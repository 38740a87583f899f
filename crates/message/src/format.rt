// The bytes of a message: its kind, its train, 0, 0, its place in four bytes, and the check of these eight in four bytes.

// How many bytes there are, and how many of them the check is of.
pub const MESSAGE_LENGTH: usize = 12;

pub const CHECKED_LENGTH: usize = 8;

// The first byte of each kind. No enum: `Message` has the cases, and these numbers stand only where bytes are read and made.
pub const REPORT: u8 = 1;

pub const GRANT: u8 = 2;
