//! Progress of a long run, for a person at a terminal.
use play::Progress;
use std::io;
use std::io::IsTerminal;
use std::time::{Duration, Instant};

/// A line that tells how much of something was played: once a second, and never in the first.
#[derive(Drop)]
pub struct ProgressLine<'a> {
    rt: &'a HostRuntime,
    name: &'a str,
    // nobody looks, or nobody wants to see it
    silent: bool,
    told: Instant,
    // something stands on the terminal's line
    shown: bool,
}

impl<'a> ProgressLine<'a> {
    // Ticks that go to a terminal too would be broken by it.
    pub fn new(
        rt: &'a HostRuntime,
        name: &'a str,
        quiet: bool,
        ticks: bool,
    ) -> io::Result<ProgressLine<'a>> {
        Ok(ProgressLine {
            rt,
            name,
            silent: quiet || !rt.stderr().is_terminal() || (ticks && rt.stdout().is_terminal()),
            told: Instant::now(rt)?,
            shown: false,
        })
    }

    // Clears the terminal's line.
    pub fn end(&mut self) -> io::Result<()> {
        if self.shown {
            self.shown = false;
            eprint!(self.rt; "\r\x1b[K")?;
        }
        Ok(())
    }
}

impl<'a> Progress for ProgressLine<'a> {
    fn tell(&mut self, done: usize, all: usize) -> io::Result<()> {
        if self.silent || self.told.elapsed(self.rt)? < Duration::from_secs(1) {
            return Ok(());
        }
        self.told = Instant::now(self.rt)?;
        self.shown = true;
        let name = self.name;
        let percent = done as u128 * 100 / (all as u128).max(1);
        eprint!(self.rt; "\rbench: {name}: {percent} % played ")
    }
}
