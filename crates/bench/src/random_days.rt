//! Random days, written as scenarios and played as files are.
ghost use Rattle.random.specs.Days.{IsDay};
ghost use Rattle.random.specs.declared.day.Day.{Day};
ghost use Rattle.scenario.specs.Written.{scenario_text};
ghost use Rattle.std.specs.Prelude.{◌≡◌, ◌++◌, IfOk, string_bytes};

use crate::printing::Printing;
use crate::progress::ProgressLine;
use arguments::RandomDays;
use line::Gaps;
use play::{PlayError, Progress, play};
use random::{Day, Extent, random_day};
use scenario::{Head, write};
use std::alloc::{AllocError, Global};
use std::io::{self, BufWriter, Write};
use std::process::ExitCode;

// A day of a seed, and its scenario.
#[derive(Drop)]
struct Written {
    day: Day,
    text: String,
}

fn written_day(alloc: Global, seed: u64, extent: Extent) -> Result<Written, AllocError>
    ensures day { IfOk result (λ written. IsDay extent written.day) }
    ensures text { IfOk result (λ written. string_bytes written.text ≡ scenario_text written.day.head.items written.day.events.items) }
{
    let day = random_day(alloc, seed, extent)?;
    let mut text = String::new(alloc);
    write(&mut text, &day.head, &day.events)?;
    Ok(Written { day, text })
}

// How large each of the days is.
fn extent_of(asked: RandomDays) -> Extent {
    Extent {
        trains: asked.trains,
        controllers: asked.controllers,
        events: asked.events,
    }
}

// Prints the scenario of the first day.
pub fn write_day(rt: &HostRuntime, asked: RandomDays) -> io::Result<ExitCode> {
    let Ok(written) = written_day(rt.alloc(), asked.seed, extent_of(asked)) else {
        return no_memory(rt, asked.seed);
    };
    let mut out = BufWriter::with_capacity(rt.alloc(), 1 << 16, io::writer(rt))?;
    out.write_all(written.text.as_bytes())?;
    out.flush()?;
    Ok(ExitCode::SUCCESS)
}

// Plays the days, and tells of each in a line and then of all.
pub fn play_days(rt: &HostRuntime, asked: RandomDays) -> io::Result<ExitCode> {
    let mut out = BufWriter::with_capacity(rt.alloc(), 1 << 16, io::writer(rt))?;
    let mut progress = ProgressLine::new(rt, "random days", asked.quiet, !asked.quiet)?;
    let mut events = 0u128;
    let mut all = Gaps {
        count: 0,
        smallest: None,
    };
    for day in 0..asked.days {
        progress.tell(day as usize, asked.days as usize)?;
        let seed = asked.seed.wrapping_add(day);
        let Ok(written) = written_day(rt.alloc(), seed, extent_of(asked)) else {
            progress.end()?;
            out.flush()?;
            return no_memory(rt, seed);
        };
        match play_day(rt, &written.text)? {
            Ok(gaps) => {
                if !asked.quiet {
                    tell_day(rt.alloc(), &mut out, seed, &written.day, gaps)?;
                }
                events = events.saturating_add(written.day.events.len() as u128);
                all = all.and(gaps);
            }
            Err(error) => {
                progress.end()?;
                out.flush()?;
                return unplayed(rt, seed, error);
            }
        }
    }
    progress.end()?;
    writeln!(out, "{} days, {events} events: {all}", asked.days)?;
    out.flush()?;
    Ok(ExitCode::SUCCESS)
}

// The gaps of a day. Nothing is told of its ticks, nor of its progress.
fn play_day<'a>(rt: &HostRuntime, text: &'a String) -> io::Result<Result<Gaps, PlayError<'a>>> {
    let alloc = rt.alloc();
    let mut silent = ProgressLine::new(rt, "", true, false)?;
    let mut unseen = Printing::new(alloc, io::sink(), false);
    Ok(play(alloc, text.as_str(), &mut unseen, &mut silent))
}

fn no_memory(rt: &HostRuntime, seed: u64) -> io::Result<ExitCode> {
    eprintln!(rt; "bench: day {seed}: there is not enough memory")?;
    Ok(ExitCode::FAILURE)
}

// That a day is refused cannot be, or the generator, the writer or the reader is wrong.
fn unplayed(rt: &HostRuntime, seed: u64, error: PlayError<'_>) -> io::Result<ExitCode> {
    match error {
        PlayError::NoMemory => return no_memory(rt, seed),
        PlayError::Output(error) => return Err(error),
        PlayError::Refused(refused) => eprintln!(rt;
            "bench: day {seed}: {refused}: --write prints it"
        )?,
    }
    Ok(ExitCode::FAILURE)
}

fn tell_day<W: Write>(
    alloc: Global,
    out: &mut W,
    seed: u64,
    day: &Day,
    gaps: Gaps,
) -> io::Result<()> {
    let head = Head::of(alloc, &day.head)?;
    let brakes = head.brakes;
    let trains = head.trains.len();
    let controllers = head.controllers;
    let events = day.events.len();
    writeln!(
        out,
        "day {seed}: brake {}, blur {}, {trains} trains, {controllers} controllers, {events} events: {gaps}",
        brakes.brake, brakes.blur
    )
}
