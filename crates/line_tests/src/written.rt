// Scenarios that are written, byte for byte, and read again.
use crate::setting::{EVENTS, HEAD, LINES, TEXT, reads_day};
use scenario::{HeadLine, write};
use std::test::Fail;

// Writing goes on after what was written before.
#[test]
fn a_day_is_written_and_read(rt: HostRuntime) -> Result<(), Fail> {
    let mut out = String::new(rt.alloc());
    write(&mut out, &[], &[])?;
    write(&mut out, &HEAD, &EVENTS)?;
    assert_eq!(&rt; out.as_str(), TEXT);
    reads_day(&rt, rt.alloc(), out.as_str(), &HEAD, &LINES)?;
    let mut out = format!(in rt.alloc(); "# so ")?;
    write(&mut out, &[HeadLine::Brake(u64::MAX)], &[])?;
    write(&mut out, &[HeadLine::Blur(0)], &[])?;
    assert_eq!(&rt; out.as_str(), "# so brake 18446744073709551615\nblur 0\n");
    Ok(())
}
