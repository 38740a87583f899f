// The entry that a line is, of each kind.
use crate::setting::{EVENTS, HEAD, TEXT};
use scenario::{Entry, explain, read_event, read_head_line, read_line};

#[test]
fn lines_are_read(rt: HostRuntime) {
    let lines = [
        "brake 3",
        "blur 1",
        "controllers 4",
        "train 490 500 510 2000 100",
        "train 375 380 385 398 80",
    ];
    for (line, head) in lines.into_iter().zip(HEAD) {
        let read = (read_line(line), read_head_line(line), read_event(line));
        assert_eq!(rt; read, (Some(Entry::Head(head)), Some(head), None), "{line}");
    }
    let lines = [
        "tick 1 wish 7 speed 5",
        "mark 1",
        "report 0",
        "hear 2 message 0",
        "tell 3 train 1",
        "grant 2 train 0",
        "take message 12",
        "restart 3",
    ];
    for (line, event) in lines.into_iter().zip(EVENTS) {
        let read = (read_line(line), read_head_line(line), read_event(line));
        assert_eq!(rt;
            read,
            (Some(Entry::Event(event)), None, Some(event)),
            "{line}"
        );
    }
    for line in TEXT.lines() {
        assert!(rt; explain(line).is_none(), "{line}");
    }
}
