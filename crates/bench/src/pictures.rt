//! A day as a picture. It is played twice: to learn what the picture has to hold, and to be drawn.
ghost use Rattle.play.specs.Played.{Played};
ghost use Rattle.std.specs.Prelude.{IfOk};

use crate::progress::ProgressLine;
use line::{Gaps, Line};
use picture::{Drawing, Extent, Heading, write_picture};
use play::{Piece, PlayError, Refused, Watcher, play};
use std::alloc::{AllocError, Global};
use std::fmt::Write;

// What a day gave: its gaps, or why it was refused; and its picture up to there.
#[derive(Drop)]
pub struct Drawn<'a> {
    pub outcome: Result<Gaps, Refused<'a>>,
    pub svg: String,
}

// Draws the day of a text, under a title.
pub fn draw<'a>(
    alloc: Global,
    text: &'a str,
    title: &str,
    progress: &mut ProgressLine<'_>,
) -> Result<Drawn<'a>, PlayError<'a>>
    ensures { IfOk result (λ drawn. IfOk drawn.outcome (λ gaps. Played text.now gaps)) }
{
    let mut survey = Survey {
        extent: Extent::of(&[]),
        gaps: Gaps {
            count: 0,
            smallest: None,
        },
    };
    let outcome = match play(alloc, text, &mut survey, progress) {
        Ok(gaps) => Ok(gaps),
        Err(PlayError::Refused(refused)) => Err(refused),
        Err(error) => return Err(error),
    };
    let Survey { extent, gaps } = survey;
    let mut sketch = Sketch {
        alloc,
        extent,
        drawing: Drawing::new(alloc, extent, &[])?,
    };
    match play(alloc, text, &mut sketch, progress) {
        Ok(_) | Err(PlayError::Refused(_)) => {}
        Err(error) => return Err(error),
    }
    let svg = written(alloc, &sketch.drawing, title, gaps, &outcome)?;
    Ok(Drawn { outcome, svg })
}

// The picture as text.
fn written(
    alloc: Global,
    drawing: &Drawing,
    title: &str,
    gaps: Gaps,
    outcome: &Result<Gaps, Refused<'_>>,
) -> Result<String, AllocError> {
    let mut svg = String::new(alloc);
    let mut why = String::new(alloc);
    let refusal = match outcome {
        Ok(_) => None,
        Err(refused) => {
            if let Some(line) = refused.line {
                let line = line.saturating_add(1);
                write!(why, "line {line}: ")?;
            }
            write!(why, "{refused}")?;
            Some(why.as_str())
        }
    };
    let mut told = String::new(alloc);
    write!(told, "{gaps}")?;
    if gaps.smallest.is_some() {
        told.push_str(" decimetres")?;
    }
    let heading = Heading {
        title,
        gaps: told.as_str(),
        refusal,
    };
    write_picture(&mut svg, drawing, heading)?;
    Ok(svg)
}

// Learns what the picture has to hold.
#[derive(Drop)]
struct Survey {
    extent: Extent,
    gaps: Gaps,
}

impl Watcher for Survey {
    fn piece_size(&self) -> usize {
        1
    }

    fn begin<'a>(&mut self, line: &Line) -> Result<(), PlayError<'a>> {
        self.extent = Extent::of(line.trains());
        Ok(())
    }

    fn look<'a>(&mut self, line: &Line, piece: &Piece) -> Result<(), PlayError<'a>> {
        if !piece.events.is_empty() {
            self.extent = self.extent.after(line.trains());
            self.gaps = self.gaps.and(piece.gaps);
        }
        Ok(())
    }
}

// Draws the day, event after event.
#[derive(Drop)]
struct Sketch {
    alloc: Global,
    extent: Extent,
    drawing: Drawing,
}

impl Watcher for Sketch {
    fn piece_size(&self) -> usize {
        1
    }

    fn begin<'a>(&mut self, line: &Line) -> Result<(), PlayError<'a>> {
        self.drawing = Drawing::new(self.alloc, self.extent, line.trains())?;
        if self.extent.events == 0 {
            self.drawing.stand(line.trains())?;
        }
        Ok(())
    }

    fn look<'a>(&mut self, line: &Line, piece: &Piece) -> Result<(), PlayError<'a>> {
        if let Some(event) = piece.events.first() {
            let word = piece.seen.first().map(|tick| tick.word);
            self.drawing
                .after(*event, word, line.trains(), line.sent())?;
        }
        Ok(())
    }
}
