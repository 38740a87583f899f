// How a reader goes on: its events with the numbers of their lines, and where it stops.
use crate::setting::{EVENTS, HEAD, LINES, TEXT};
use scenario::{Stop, read_events, read_head};
use std::test::Fail;
use text::Reader;

#[test]
fn events_come_piece_by_piece(rt: HostRuntime) -> Result<(), Fail> {
    let mut reader = Reader::new(TEXT);
    assert_eq!(&rt;
        read_head(&mut reader, rt.alloc())?.as_slice(),
        HEAD.as_slice()
    );
    let (mut events, mut lines) = (vec![in rt.alloc()]?, vec![in rt.alloc()]?);
    let end = Some(Stop::End);
    for (from, to, stop) in [(0, 3, None), (3, 6, None), (6, 8, end), (8, 8, end)] {
        assert_eq!(&rt; read_events(&mut reader, 3, &mut events, &mut lines)?, stop);
        assert_eq!(&rt; EVENTS.get(from..to), Some(events.as_slice()));
        assert_eq!(&rt; LINES.get(from..to), Some(lines.as_slice()));
    }
    assert_eq!(&rt; reader.bytes_left(), 0);
    Ok(())
}

#[test]
fn reader_stands_before_an_unreadable_line(rt: HostRuntime) -> Result<(), Fail> {
    let mut reader = Reader::new("mark 4\n\n sped 6 \r\nmark 7\n");
    let (mut events, mut lines) = (vec![in rt.alloc()]?, vec![in rt.alloc()]?);
    for count in [1, 0] {
        let stop = read_events(&mut reader, 9, &mut events, &mut lines)?;
        assert_eq!(&rt; stop, Some(Stop::Unreadable { line: 2 }));
        assert_eq!(&rt; lines.len(), count);
    }
    let said = reader.next_said().map(|said| (said.line, said.text));
    assert_eq!(&rt; said, Some((2, " sped 6 ")));
    assert_eq!(&rt; reader.bytes_left(), 7);
    Ok(())
}
