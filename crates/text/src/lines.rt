//! Reading a text, line after line.
ghost use Rattle.text.specs.Lines.{GoneOn, left, line_at, said, said_by, says_nothing};
ghost use Rattle.text.specs.Words.{words};
ghost use Rattle.std.specs.List.{after_first, before_first};
ghost use Rattle.std.specs.Str.Lines.{strip_carriage_return};
ghost use Rattle.std.specs.Prelude.{◌≡◌, ◌<◌, ◌==◌, ◌+◌, ◌-◌, ◌∷◌, ◌++◌, [], IfNone, IfSome, length};

use crate::reader::Reader;
use crate::words::next_word;

/// A line that says something: its number, counted from 0, and its text without the line end.
#[derive(Clone, Copy)]
pub struct SaidLine<'a> {
    pub line: u64,
    pub text: &'a str,
}

impl<'a> Reader<'a> {
    /// A reader of a whole text.
    pub fn new(text: &'a str) -> Reader<'a>
        ensures said { left result ≡ said text.now }
        ensures rest { (result.rest.now ≡ text.now) × (result.line ≡ 0) }
    {
        Reader {
            rest: text,
            line: 0,
        }
    }

    /// How many bytes are left.
    pub fn bytes_left(&self) -> usize
        ensures { result ≡ length self.now.rest.now }
    {
        self.rest.len()
    }

    /// Takes the lines up to the first that says something; that line, if there is one.
    #[tactic(auto, using(crate::proofs::TextLines::nothing_left, crate::proofs::GoingOn::gone_nowhere, crate::proofs::GoingOn::gone_by_line))]
    pub fn next_said(&mut self) -> Option<SaidLine<'a>>
        ensures some { IfSome result (λ said. left self.old ≡ record { line = said.line; words = words said.text.now } ∷ left self.new) }
        ensures none { IfNone result ((left self.old ≡ []) × (left self.new ≡ [])) }
        ensures text { IfSome result (λ said. said.text.now ≡ line_at (said.line - self.old.line) self.old.rest.now) }
        ensures next { IfSome result (λ said. (self.new.line ≡ said.line + 1) × GoneOn self.old self.new) }
        ensures end { IfNone result (self.new.rest.now ≡ []) }
        ensures shorter { IfSome result (λ said. length self.new.rest.now < length self.old.rest.now) }
    {
        while !self.rest.is_empty() {
            let line = self.line;
            let text = without_return(self.take_line());
            if !says_nothing(text) {
                return Some(SaidLine { line, text });
            }
        }
        None
    }

    // Takes the first line.
    fn take_line(&mut self) -> &'a str
        requires { 0 < length self.old.rest.now }
        ensures taken { left self.old ≡ said_by self.old.line result.now ++ left self.new }
        ensures line { result.now ≡ before_first (λ byte. byte == 10) self.old.rest.now }
        ensures rest { self.new.rest.now ≡ after_first (λ byte. byte == 10) self.old.rest.now }
        ensures next { self.new.line ≡ self.old.line + 1 }
        ensures shorter { length self.new.rest.now < length self.old.rest.now }
    {
        let (line, rest) = self.rest.split_once('\n').unwrap_or((self.rest, ""));
        *self = Reader {
            rest,
            line: self.line + 1,
        };
        line
    }
}

// The line without a carriage return at its end.
fn without_return(line: &str) -> &str
    ensures { result.now ≡ strip_carriage_return line.now }
{
    line.strip_suffix('\r').unwrap_or(line)
}

// Whether the line has no word, or is a comment.
fn says_nothing(line: &str) -> bool
    ensures { result ≡ says_nothing (words line.now) }
{
    match next_word(line) {
        None => true,
        Some((word, _)) => matches!(word.as_bytes(), [b'#', ..]),
    }
}
