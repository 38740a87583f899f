// The next message of bytes that hold several, one after the other.
ghost use Rattle.message.specs.Stream.{NextOf};

use crate::format::MESSAGE_LENGTH;

// Parts of the bytes that were lent: nothing is copied.
#[derive(Clone, Copy, PartialEq, Eq, Debug)]
pub struct Next<'a> {
    // the bytes of the next message, if there are enough for one
    pub message: Option<&'a [u8]>,
    // what follows them; all of the bytes where they are too few
    pub rest: &'a [u8],
}

pub fn next_message(stream: &[u8]) -> Next<'_>
    ensures { NextOf stream.now result }
{
    match stream.split_at_checked(MESSAGE_LENGTH) {
        Some((bytes, rest)) => Next {
            message: Some(bytes),
            rest,
        },
        None => Next {
            message: None,
            rest: stream,
        },
    }
}
