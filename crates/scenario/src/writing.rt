// Writing a scenario.
ghost use Rattle.scenario.specs.Lines.{entry_words};
ghost use Rattle.scenario.specs.Written.{scenario_text};
ghost use Rattle.text.specs.Written.{joined, line_text};
ghost use Rattle.std.specs.Prelude.{◌≡◌, ◌++◌, OnOk, Some, string_bytes};

use crate::entry::{Entry, HeadLine};
use onboard::InitialTrain;
use safety::Event;
use std::alloc::AllocError;
use std::fmt;

// Writes each line of the head and then each event, a line for each, after what was written before.
pub fn write(out: &mut String, head: &[HeadLine], events: &[Event]) -> Result<(), AllocError>
    ensures { OnOk result (string_bytes out.new ≡ string_bytes out.old ++ scenario_text head.now events.now) }
{
    for line in head {
        write_line(out, Entry::Head(*line))?;
    }
    for event in events {
        write_line(out, Entry::Event(*event))?;
    }
    Ok(())
}

fn write_line(out: &mut String, entry: Entry) -> Result<(), AllocError>
    ensures { OnOk result (string_bytes out.new ≡ string_bytes out.old ++ line_text (entry_words entry)) }
{
    writeln!(out, "{entry}")
}

impl fmt::Display for Entry {
    ghost output = { λ entry. Some (joined (entry_words entry)) };

    fn fmt<W: fmt::Write>(&self, f: &mut fmt::Formatter<W>) -> fmt::Result {
        match *self {
            Entry::Head(HeadLine::Brake(brake)) => write!(f, "brake {brake}"),
            Entry::Head(HeadLine::Blur(blur)) => write!(f, "blur {blur}"),
            Entry::Head(HeadLine::Controllers(controllers)) => {
                write!(f, "controllers {controllers}")
            }
            Entry::Head(
                HeadLine::Train(
                    InitialTrain {
                        low,
                        front,
                        high,
                        end,
                        length,
                    },
                ),
            ) => write!(f, "train {low} {front} {high} {end} {length}"),
            Entry::Event(Event::Tick { train, wish, speed }) => {
                write!(f, "tick {train} wish {wish} speed {speed}")
            }
            Entry::Event(Event::Mark { train }) => write!(f, "mark {train}"),
            Entry::Event(Event::Report { train }) => write!(f, "report {train}"),
            Entry::Event(
                Event::Hear {
                    controller,
                    message,
                },
            ) => write!(f, "hear {controller} message {message}"),
            Entry::Event(Event::Tell { controller, train }) => {
                write!(f, "tell {controller} train {train}")
            }
            Entry::Event(Event::Grant { controller, train }) => {
                write!(f, "grant {controller} train {train}")
            }
            Entry::Event(Event::Take { message }) => write!(f, "take message {message}"),
            Entry::Event(Event::Restart { controller }) => write!(f, "restart {controller}"),
        }
    }
}
