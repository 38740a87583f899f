// What is wrong with a line, and what would be right.
ghost use Rattle.scenario.specs.Faults.{FaultAt, FirstFault, FitsPart, FoundAt, Readable, form_of, text_of};
ghost use Rattle.braking.specs.Limits.{speed_max};
ghost use Rattle.scenario.specs.declared.fault.Part.{Part};
ghost use Rattle.scenario.specs.declared.fault.Part.TheVariants.{Wish};
ghost use Rattle.scenario.specs.Told.{fault_text, part_text};
ghost use Rattle.text.specs.Words.{words};
ghost use Rattle.std.specs.Char.{is_ascii_graphic};
ghost use Rattle.std.specs.List.{list_all};
ghost use Rattle.std.specs.Prelude.{◌≡◌, ◌≢◌, ◌≤◌, ◌+◌, ◌∷◌, decimal, ℕ, suc, List, IfNone, IfSome, Some, drop, false, true};

use crate::keyword::Keyword;
use crate::reading::read_line;
use braking::limits::SPEED_MAX;
use std::fmt;
use text::{next_word, number};

// The words that stand between numbers.
#[derive(Clone, Copy, PartialEq, Eq, Debug)]
pub enum Between {
    Wish,
    Speed,
    Message,
    Train,
}

// What can stand at a place of a line.
#[derive(Clone, Copy, PartialEq, Eq, Debug)]
pub enum Part {
    Keyword,
    Number,
    Wish,
    Word(Between),
    End,
}

// The place of a word in its line, counted from 0, what has to stand there, and the word that does, if there is one.
#[derive(Clone, Copy)]
pub struct Fault<'a> {
    pub place: usize,
    pub expected: Part,
    pub found: Option<&'a str>,
}

// The first fault of a line that is no entry. (A line that says nothing is none: there a first word is missing, or wrong.)
pub fn explain(line: &str) -> Option<Fault<'_>>
    ensures readable { IfNone result (Readable (words line.now)) }
    ensures fault { IfSome result (λ _. Readable (words line.now) → ⊥) }
    ensures first { IfSome result (λ fault. FirstFault (words line.now) fault.place fault.expected) }
    ensures found { IfSome result (λ fault. FoundAt fault.found fault.place (words line.now)) }
{
    if read_line(line).is_some() {
        return None;
    }
    Some(first_fault(line))
}

// The first word that is not as it has to be.
fn first_fault(line: &str) -> Fault<'_>
    ensures first { FirstFault (words line.now) result.place result.expected }
    ensures found { FoundAt result.found result.place (words line.now) }
{
    let Some((word, mut rest)) = next_word(line) else {
        return fault_at(line, 0, Part::Keyword);
    };
    let Some(keyword) = Keyword::of(word) else {
        return fault_at(line, 0, Part::Keyword);
    };
    let form = keyword.form();
    for (index, part) in form.iter().enumerate() {
        let Some(after) = fitting(rest, *part) else {
            return fault_at(rest, index + 1, *part);
        };
        rest = after;
    }
    fault_at(rest, 1 + form.len(), Part::End)
}

// What comes after the first word of the rest of a line, if that is what has to stand there.
#[tactic(auto, using(crate::proofs::Places::after_word))]
fn fitting(rest: &str, part: Part) -> Option<&str>
    ensures rest { IfSome result (λ after. (line : List (List ℕ)) (place : ℕ) → words rest.now ≡ drop place line → words after.now ≡ drop (place + 1) line) }
    ensures some { IfSome result (λ after. (form : List Part) (place : ℕ) (expected : Part) →
        FaultAt form (words after.now) place expected → FaultAt (part ∷ form) (words rest.now) (suc place) expected) }
    ensures none { IfNone result ((form : List Part) → FaultAt (part ∷ form) (words rest.now) 0 part) }
{
    let (word, after) = next_word(rest)?;
    if part.fits(word) { Some(after) } else { None }
}

// The first word of the rest of a line is not what has to stand at its place.
#[tactic(auto, using(crate::proofs::Places::word_at, crate::proofs::Places::line_ends))]
fn fault_at(rest: &str, place: usize, expected: Part) -> Fault<'_>
    ensures told { (result.place ≡ place) × (result.expected ≡ expected) }
    ensures found { (line : List (List ℕ)) → words rest.now ≡ drop place line → FoundAt result.found result.place line }
{
    let found = match next_word(rest) {
        Some((word, _)) => Some(word),
        None => None,
    };
    Fault {
        place,
        expected,
        found,
    }
}

impl Keyword {
    // What follows it in its line.
    fn form(self) -> &'static [Part]
        ensures { result.now ≡ form_of self }
    {
        match self {
            Keyword::Train => &[
                Part::Number,
                Part::Number,
                Part::Number,
                Part::Number,
                Part::Number,
            ],
            Keyword::Tick => &[
                Part::Number,
                Part::Word(Between::Wish),
                Part::Wish,
                Part::Word(Between::Speed),
                Part::Number,
            ],
            Keyword::Hear => &[Part::Number, Part::Word(Between::Message), Part::Number],
            Keyword::Tell | Keyword::Grant => &[
                Part::Number,
                Part::Word(Between::Train),
                Part::Number,
            ],
            Keyword::Take => &[Part::Word(Between::Message), Part::Number],
            _ => &[Part::Number],
        }
    }
}

impl Between {
    fn text(self) -> &'static str
        ensures { result.now ≡ text_of self }
    {
        match self {
            Between::Wish => "wish",
            Between::Speed => "speed",
            Between::Message => "message",
            Between::Train => "train",
        }
    }
}

impl Part {
    // Whether the word is what has to stand there.
    fn fits(self, word: &str) -> bool
        ensures yes { result ≡ true → FitsPart self word.now }
        ensures no { result ≡ false → FitsPart self word.now → ⊥ }
    {
        match self {
            Part::Keyword => Keyword::of(word).is_some(),
            Part::Number => number(word).is_some(),
            Part::Wish => is_wish(word),
            Part::Word(between) => word == between.text(),
            Part::End => false,
        }
    }
}

// Whether the word writes a wish that a driver can have.
#[tactic(auto, using(crate::proofs::Wishes::past_wish))]
fn is_wish(word: &str) -> bool
    ensures yes { result ≡ true → FitsPart Wish word.now }
    ensures no { result ≡ false → (n : ℕ) → n ≤ speed_max → word.now ≢ decimal n }
{
    match number(word) {
        Some(wish) => wish <= SPEED_MAX,
        None => false,
    }
}

impl fmt::Display for Part {
    ghost output = { λ part. Some (part_text part) };

    #[tactic(auto, unfolding(crate::specs::Told::keywords_text, crate::specs::Told::number_text))]
    fn fmt<W: fmt::Write>(&self, f: &mut fmt::Formatter<W>) -> fmt::Result {
        match *self {
            Part::Keyword => f.write_str(
                "brake, blur, controllers, train, tick, mark, report, hear, tell, grant, take or restart",
            ),
            Part::Number => f.write_str("a number below 2^64 without sign or leading zero"),
            Part::Wish => f.write_str("a wish from 0 to 10000"),
            Part::Word(between) => {
                let word = between.text();
                write!(f, "'{word}'")
            }
            Part::End => f.write_str("the end of the line"),
        }
    }
}

// The longest word that is shown.
const SHOWN_MAX: usize = 40;

impl<'a> fmt::Display for Fault<'a> {
    ghost output = { λ fault. Some (fault_text fault) };

    fn fmt<W: fmt::Write>(&self, f: &mut fmt::Formatter<W>) -> fmt::Result {
        let expected = self.expected;
        write!(f, "expected {expected}, found ")?;
        match self.found {
            None => f.write_str("the end of the line"),
            Some(word) if word.len() <= SHOWN_MAX && is_plain(word) => write!(f, "'{word}'"),
            Some(word) => {
                let length = word.len();
                write!(f, "a word of {length} bytes")
            }
        }
    }
}

// Whether a terminal shows each of its bytes as one sign.
fn is_plain(word: &str) -> bool
    ensures { result ≡ list_all is_ascii_graphic word.now }
{
    word.as_bytes().iter().all(|byte| byte.is_ascii_graphic())
}
