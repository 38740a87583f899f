// Messages against bytes that another implementation has worked out.
use crate::states::{FARTHEST, heard};
use crate::vectors::{GRANTS, REPORTS, STREAM};
use braking::Refusal;
use message::{Message, Next, next_message, read};
use std::process::Abort;

fn there_and_back(rt: &impl Abort, message: Message, bytes: &[u8; 12]) {
    assert_eq!(rt; message.write(), Ok(*bytes));
    assert_eq!(rt; read(bytes), Ok(message));
}

fn next_is_cut(rt: &impl Abort, stream: &[u8]) {
    let wanted = if stream.len() < 12 {
        Next {
            message: None,
            rest: stream,
        }
    } else {
        Next {
            message: Some(&stream[..12]),
            rest: &stream[12..],
        }
    };
    assert_eq!(rt; next_message(stream), wanted);
}

// Two of the stored messages have the right check and differ in eight bits alone: the report that the rear of train 1 is not
// behind 0, and the grant to it as far as 2,162,688.
#[test]
fn messages_there_and_back(rt: HostRuntime) {
    for (train, place, bytes) in REPORTS {
        there_and_back(&rt, Message::Report { train, place }, bytes);
    }
    for (train, place, bytes) in GRANTS {
        there_and_back(&rt, Message::Grant { train, place }, bytes);
    }
    for length in 0..25 {
        let part = &STREAM[..length];
        next_is_cut(&rt, part);
    }
}

// Neither is such a message written, nor is it heard.
#[test]
fn only_what_can_be_is_written(rt: HostRuntime) {
    let controller = heard(400, 300);
    let far = FARTHEST + 1;
    let report = |train, place| Message::Report { train, place };
    let grant = |train, place| Message::Grant { train, place };
    let cases = [
        (report(64, far), Refusal::TrainTooHigh),
        (report(u64::MAX, 0), Refusal::TrainTooHigh),
        (grant(64, 0), Refusal::TrainTooHigh),
        (grant(0, far), Refusal::GrantToForemost),
        (report(0, far), Refusal::PlaceTooFar),
        (grant(63, u64::MAX), Refusal::PlaceTooFar),
    ];
    for (message, why) in cases {
        assert_eq!(rt; message.write(), Err(why));
        assert_eq!(rt; controller.hear(message), (controller, Err(why)));
    }
}
