//! The bench: plays scenarios, and tells how trains move and how close they come.
#![tactic(auto)]

mod files;
mod pictures;
mod printing;
mod progress;
mod random_days;

use arguments::{Arguments, Request, read_arguments};
use files::read_text;
use pictures::draw;
use play::{PlayError, Refused, play};
use printing::Printing;
use progress::ProgressLine;
use random_days::{play_days, write_day};
use std::io::{self, BufWriter, Write};
use std::process::ExitCode;
use std::{env, fmt, fs};

const USAGE: &str = "usage: bench [--quiet] [--check] [FILE]...
       bench --svg PICTURE [--quiet] [--check] [FILE]
       bench --random SEED [--days N] [--events N] [--trains N] [--controllers N] [--quiet] [--write]

Plays scenarios: each FILE says how a day begins on a line of trains, and what happens, one event a line.
'-', or no FILE at all, is standard input.

Prints a line for each tick: the train, whether its unit lets the driver drive or brakes, the speed that the
train then has, and where its front is; at the end how many gaps between trains were looked at, and the
smallest. Places are in decimetres from the foot of the line, speeds in decimetres a tick.

A scenario has, one a line: first brake N, blur N, controllers N (8 if not given), and for each train, the
foremost first, train LOW FRONT HIGH END LENGTH; then events: tick I wish W speed V, mark I, report I,
hear C message M, tell C train I, grant C train I, take message M, restart C. A line that begins with # is a
comment. Trains, controllers and messages are numbered from 0.

Options come before the files; after '--' all are files.
  --quiet    leaves out the ticks, and progress on long runs
  --check    says of each file in one line whether it is taken or how it is refused, and goes on
  --svg PICTURE
             draws the day of one FILE as a train graph, and prints no ticks; PICTURE is a file whose name ends
             in .svg, or '-' for standard output
  --help     prints this
  --version  prints the version

bench --random plays random days from a number on, the same ones for the same numbers, and tells of each in a line
how large it is and what gaps there were, and at the end of all. Old and repeated messages are frequent.
  --days N         so many days, for SEED and the numbers after it (1 if not given)
  --events N       so many events in each (400)
  --trains N       so many trains at most (5; up to 64)
  --controllers N  so many controllers at most (2; up to 8)
  --quiet          tells of all days together alone
  --write          prints the scenario of the day, and does not play it

The status is 0, or 1 where a file is refused or cannot be read, if it is not checked, or where a picture cannot be
written, or 2 where an argument is wrong.";

const VERSION: &str = "bench 1";

// Plays one file. Answers whether it was taken.
fn play_file(rt: &HostRuntime, name: &str, arguments: &Arguments) -> io::Result<bool> {
    let text = match read_text(rt, name) {
        Ok(text) => text,
        Err(error) => return tell(rt, arguments, format_args!("{name}: {error}")),
    };
    if let Some(picture) = arguments.picture {
        return draw_text(rt, name, &text, picture, arguments);
    }
    let out = BufWriter::with_capacity(rt.alloc(), 1 << 16, io::writer(rt))?;
    let shown = !arguments.quiet && !arguments.check;
    let mut progress = ProgressLine::new(rt, name, arguments.quiet, shown)?;
    let mut printing = Printing::new(rt.alloc(), out, shown);
    let played = play(rt.alloc(), text.as_str(), &mut printing, &mut progress);
    progress.end()?;
    let mut out = printing.out;
    match played {
        Ok(gaps) if arguments.check => writeln!(out, "{name}: taken: {gaps}")?,
        Ok(gaps) => writeln!(out, "{gaps}")?,
        Err(_) => {}
    }
    out.flush()?;
    match played {
        Ok(_) => Ok(true),
        Err(PlayError::Refused(refused)) => tell_refused(rt, arguments, name, refused),
        Err(PlayError::NoMemory) => tell(
            rt,
            arguments,
            format_args!("{name}: there is not enough memory"),
        ),
        Err(PlayError::Output(error)) => Err(error),
    }
}

// Draws the day of one file, and writes the picture. Answers whether the file was taken.
fn draw_text(
    rt: &HostRuntime,
    name: &str,
    text: &String,
    picture: &str,
    arguments: &Arguments,
) -> io::Result<bool> {
    let mut progress = ProgressLine::new(rt, name, arguments.quiet, false)?;
    let title = title_of(name);
    let drawn = draw(rt.alloc(), text.as_str(), title, &mut progress);
    progress.end()?;
    let drawn = match drawn {
        Ok(drawn) => drawn,
        Err(PlayError::Output(error)) => return Err(error),
        Err(_) => {
            return tell(
                rt,
                arguments,
                format_args!("{name}: there is not enough memory"),
            );
        }
    };
    if picture == "-" {
        print!(rt; "{}", drawn.svg)?;
    } else if let Err(error) = fs::write(rt, picture, drawn.svg.as_bytes()) {
        eprintln!(rt; "bench: {picture}: cannot be written: {error}")?;
        return Ok(false);
    }
    match drawn.outcome {
        Ok(_) if picture == "-" => {}
        Ok(gaps) if arguments.check => println!(rt; "{name}: taken: {gaps}")?,
        Ok(gaps) => println!(rt; "{gaps}")?,
        Err(refused) => return tell_refused(rt, arguments, name, refused),
    }
    Ok(true)
}

// A picture is called as its file, without the folders.
fn title_of(name: &str) -> &str {
    match name.rsplit_once('/') {
        _ if name == "-" => "standard input",
        Some((_, last)) => last,
        None => name,
    }
}

// Where the refusal has a line, it is told as editors count lines, from 1.
fn tell_refused(
    rt: &HostRuntime,
    arguments: &Arguments,
    name: &str,
    refused: Refused<'_>,
) -> io::Result<bool> {
    match refused.line {
        None => tell(rt, arguments, format_args!("{name}: {refused}")),
        Some(line) => tell(
            rt,
            arguments,
            format_args!("{name}:{}: {refused}", line.saturating_add(1)),
        ),
    }
}

// Why a file is not taken: on standard output where files are checked, if no picture goes there, and else on standard
// error.
fn tell(
    rt: &HostRuntime,
    arguments: &Arguments,
    why: impl fmt::Display + Drop,
) -> io::Result<bool> {
    if arguments.check && arguments.picture != Some("-") {
        println!(rt; "{why}")?;
        Ok(true)
    } else {
        eprintln!(rt; "bench: {why}")?;
        Ok(false)
    }
}

fn play_files(rt: &HostRuntime, arguments: &Arguments) -> io::Result<ExitCode> {
    let headed = arguments.files.len() > 1 && !arguments.check;
    for name in &arguments.files {
        if headed {
            println!(rt; "== {name}")?;
        }
        if !play_file(rt, name, arguments)? {
            return Ok(ExitCode::FAILURE);
        }
    }
    Ok(ExitCode::SUCCESS)
}

fn run(rt: &HostRuntime) -> io::Result<ExitCode> {
    let Ok(words) = env::args(rt) else {
        eprintln!(rt;
            "bench: an argument is not UTF-8, or there is not enough memory for the arguments"
        )?;
        return Ok(ExitCode::from(2));
    };
    let given: Vec<String> = words.skip(1).collect(rt.alloc())?;
    match read_arguments(rt.alloc(), &given) {
        Ok(Request::Help) => println!(rt; "{USAGE}")?,
        Ok(Request::Version) => println!(rt; "{VERSION}")?,
        Ok(Request::Play(arguments)) => return play_files(rt, &arguments),
        Ok(Request::Random(days)) if days.write => return write_day(rt, days),
        Ok(Request::Random(days)) => return play_days(rt, days),
        Err(error) => {
            eprintln!(rt; "bench: {error}")?;
            return Ok(ExitCode::from(2));
        }
    }
    Ok(ExitCode::SUCCESS)
}

fn main(rt: HostRuntime) -> io::Result<ExitCode> {
    match run(&rt) {
        Ok(code) => Ok(code),
        Err(error) => {
            eprintln!(rt; "bench: what it prints cannot be written: {error}")?;
            Ok(ExitCode::FAILURE)
        }
    }
}
