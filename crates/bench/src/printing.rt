//! The lines of ticks, printed while a scenario is played.
ghost use Rattle.std.specs.Prelude.{◌≡◌, []};

use line::Line;
use play::{Piece, PlayError, Watcher, write_ticks};
use std::alloc::Global;
use std::io::Write;

// So many events are read and then run at once, so that a long scenario needs no more memory than its text and the
// messages that were sent.
const PIECE: usize = 512;

#[derive(Drop)]
pub struct Printing<W: Write + Drop> {
    pub out: W,
    // whether ticks are printed
    shown: bool,
    ticks: Vec<u8>,
}

impl<W: Write + Drop> Printing<W> {
    pub fn new(alloc: Global, out: W, shown: bool) -> Printing<W>
        ensures out { result.out ≡ out }
        ensures shown { result.shown ≡ shown }
        ensures ticks { result.ticks.items ≡ [] }
    {
        Printing {
            out,
            shown,
            ticks: Vec::new(alloc),
        }
    }
}

impl<W: Write + Drop> Watcher for Printing<W> {
    fn piece_size(&self) -> usize {
        PIECE
    }

    fn begin<'a>(&mut self, _line: &Line) -> Result<(), PlayError<'a>> {
        Ok(())
    }

    fn look<'a>(&mut self, _line: &Line, piece: &Piece) -> Result<(), PlayError<'a>> {
        if self.shown {
            self.ticks.clear();
            write_ticks(&mut self.ticks, &piece.seen)?;
            self.out.write_all(&self.ticks)?;
        }
        Ok(())
    }
}
