//! Messages of a picture: each at the place that it says, from where it was sent to where it was heard or taken.

use crate::glyphs::{GRANT, HEARD, REPORT, TAKEN, WORDS};
use crate::sending::{Hearing, Kind, Sending};
use page::write_glyph;
use std::alloc::AllocError;
use std::fmt;

/// The broad lines of grants, which lie under the trains, or the thin lines of all else, which lie over them.
pub fn write_lines(
    out: &mut String,
    of_grants: bool,
    hearings: &[Hearing],
) -> Result<(), AllocError> {
    for hearing in hearings {
        let Sending {
            number,
            kind,
            place,
            at,
        } = hearing.sending;
        let to = hearing.at.x;
        if (kind == Kind::Grant) == of_grants {
            write!(out, "<path class=\"{kind}\" d=\"M{at}H{to}\"><title>")?;
            writeln!(
                out,
                "message {number}, place {place} decimetres</title></path>"
            )?;
        }
    }
    Ok(())
}

/// The glyphs where messages were sent.
pub fn write_sendings(out: &mut String, sendings: &[Sending]) -> Result<(), AllocError> {
    for sending in sendings {
        let glyph = match sending.kind {
            Kind::Report => REPORT,
            Kind::Words => WORDS,
            Kind::Grant => GRANT,
        };
        write_glyph(out, glyph, sending.at)?;
    }
    Ok(())
}

/// And those where they were heard or taken.
pub fn write_hearings(out: &mut String, hearings: &[Hearing]) -> Result<(), AllocError> {
    for hearing in hearings {
        let glyph = if hearing.taken { TAKEN } else { HEARD };
        write_glyph(out, glyph, hearing.at)?;
    }
    Ok(())
}

/// The class of its lines.
impl fmt::Display for Kind {
    fn fmt<W: fmt::Write>(&self, f: &mut fmt::Formatter<W>) -> fmt::Result {
        f.write_str(match self {
            Kind::Report => "report",
            Kind::Words => "words",
            Kind::Grant => "grant",
        })
    }
}
