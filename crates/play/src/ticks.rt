//! What is seen of ticks, as lines of text.
ghost use Rattle.play.specs.Ticks.{tick_line, word_text};
ghost use Rattle.std.specs.List.{flat_map};
ghost use Rattle.std.specs.Prelude.{◌≡◌, ◌+◌, ◌≤◌, ◌++◌, OnOk, decimal, drop, length};

use itoa::write_digits;
use line::Seen;
use onboard::Word;
use std::alloc::AllocError;

// No line of a tick is longer.
const LONGEST: usize = 80;

/// Writes a line for each tick after what is there.
pub fn write_ticks(text: &mut Vec<u8>, seen: &[Seen]) -> Result<(), AllocError>
    ensures { OnOk result (text.new.items ≡ text.old.items ++ flat_map tick_line seen.now) }
{
    let mut line = [0; LONGEST];
    for tick in seen {
        let start = write_tick(*tick, &mut line);
        text.extend_from_slice(&line[start..])?;
    }
    Ok(())
}

// Writes the line of a tick from its end, since a number is written from its last digit; answers where it starts.
#[tactic(auto, using(crate::proofs::Lines::line_written))]
fn write_tick(tick: Seen, line: &mut [u8]) -> usize
    requires { length line.old ≡ 80 }
    ensures line { drop result line.new ≡ tick_line tick }
    ensures start { result ≤ 80 }
    ensures same { length line.new ≡ length line.old }
{
    let at = write_before(b"\n", line, LONGEST);
    let at = write_number(tick.front, line, at);
    let at = write_before(b" at ", line, at);
    let at = write_number(tick.speed, line, at);
    let at = write_before(word_text(tick.word), line, at);
    write_number(tick.train, line, at)
}

fn word_text(word: Word) -> &'static [u8]
    ensures text { result.now ≡ word_text word }
    ensures length { length result.now ≡ 8 }
{
    match word {
        Word::Drive => b" drives ",
        Word::Brake => b" brakes ",
    }
}

// Writes a text so that it ends where the rest begins; answers where it starts.
fn write_before(text: &[u8], line: &mut [u8], end: usize) -> usize
    requires fits { (length text.now ≤ end) × (end ≤ length line.old) }
    ensures start { result + length text.now ≡ end }
    ensures written { drop result line.new ≡ text.now ++ drop end line.old }
    ensures same { length line.new ≡ length line.old }
{
    let start = end - text.len();
    line[start..end].copy_from_slice(text);
    start
}

// And a number, which has at most 20 digits.
fn write_number(number: u64, line: &mut [u8], end: usize) -> usize
    requires fits { (20 ≤ end) × (end ≤ length line.old) }
    ensures start { end ≤ result + 20 }
    ensures end { result ≤ end }
    ensures written { drop result line.new ≡ decimal number ++ drop end line.old }
    ensures same { length line.new ≡ length line.old }
{
    write_digits(number, line, end)
}
