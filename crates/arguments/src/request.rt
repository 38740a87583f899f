//! What the program is asked to do.
ghost use Rattle.arguments.specs.Asked.{Answers, asked, asked_files, is_option, is_picture, meaning_of, nothing_asked, playing, random, view, with_file, with_input};
ghost use Rattle.arguments.specs.AskedDays.{asked_days};
ghost use Rattle.arguments.specs.declared.request.ArgumentError.TheVariants.{NoMemory, WrongPicture};
ghost use Rattle.std.specs.Prelude.{◌≡◌, IfErr, IfNone, IfOk, IfSome, OnOk, false, map, string_bytes, true};

use crate::asked_days::{DaysError, RandomDays, read_days};
use std::alloc::Global;
use std::fmt;

// Files are played in the order in which they are given.
#[derive(Drop)]
pub struct Arguments<'a> {
    pub quiet: bool,
    pub check: bool,
    // where the picture of the one file is written, if it is to be drawn
    pub picture: Option<&'a str>,
    pub files: Vec<&'a str>,
}

#[derive(Drop)]
pub enum Request<'a> {
    Help,
    Version,
    Play(Arguments<'a>),
    Random(RandomDays),
}

#[derive(Debug, Drop)]
pub enum ArgumentError<'a> {
    Unknown(&'a str),
    // it goes with --random, which comes first
    RandomFirst(&'a str),
    Days(DaysError<'a>),
    // nothing follows --svg
    NoPicture,
    // what follows it is no name of a picture
    WrongPicture(&'a str),
    // a picture is of one day
    SeveralFiles,
    NoMemory,
}

impl<'a> fmt::Display for ArgumentError<'a> {
    fn fmt<W: fmt::Write>(&self, f: &mut fmt::Formatter<W>) -> fmt::Result {
        match self {
            ArgumentError::Unknown(option) => {
                write!(
                    f,
                    "there is no option '{option}': bench --help tells those that there are"
                )
            }
            ArgumentError::RandomFirst(option) => write!(
                f,
                "'{option}' stands where --random SEED does not come first: bench --help tells more"
            ),
            ArgumentError::Days(error) => write!(f, "{error}"),
            ArgumentError::NoPicture => f.write_str(
                "--svg wants the name of a picture after it, which ends in .svg, and then a FILE",
            ),
            ArgumentError::WrongPicture(word) => write!(
                f,
                "--svg wants the name of a picture after it, which ends in .svg, and found '{word}'"
            ),
            ArgumentError::SeveralFiles => {
                f.write_str("--svg draws one FILE, and several are given")
            }
            ArgumentError::NoMemory => f.write_str("there is not enough memory"),
        }
    }
}

// Where `--random` comes first, random days are asked for, and else files to be played.
pub fn read_arguments<'a>(
    alloc: Global,
    given: &'a [String],
) -> Result<Request<'a>, ArgumentError<'a>>
    ensures { Answers result (asked (map string_bytes given.now)) }
{
    match after_random(given) {
        Some(words) => match read_days(words) {
            Ok(days) => Ok(Request::Random(days)),
            Err(error) => Err(ArgumentError::Days(error)),
        },
        None => read_files(alloc, given),
    }
}

// The words after `--random`, if that is the first.
fn after_random(given: &[String]) -> Option<&[String]>
    ensures some { IfSome result (λ words. asked (map string_bytes given.now) ≡ random (asked_days (map string_bytes words.now))) }
    ensures none { IfNone result (asked (map string_bytes given.now) ≡ asked_files (map string_bytes given.now)) }
{
    let (first, rest) = given.split_first()?;
    if first.as_str() == "--random" {
        Some(rest)
    } else {
        None
    }
}

// Options come before the files; after `--` all are files.
fn read_files<'a>(alloc: Global, given: &'a [String]) -> Result<Request<'a>, ArgumentError<'a>>
    ensures { Answers result (asked_files (map string_bytes given.now)) }
{
    let mut arguments = Arguments::new(alloc);
    let mut options = true;
    let mut wanted = false;
    for word in given {
        let word = word.as_str();
        if wanted {
            arguments.picture = Some(picture_name(word)?);
            wanted = false;
            continue;
        }
        if !options {
            arguments.add(word)?;
            continue;
        }
        match Meaning::of(word) {
            Meaning::Help => return Ok(Request::Help),
            Meaning::Version => return Ok(Request::Version),
            Meaning::Quiet => arguments.quiet = true,
            Meaning::Check => arguments.check = true,
            Meaning::Picture => wanted = true,
            Meaning::FilesFollow => options = false,
            Meaning::AfterRandom => return Err(ArgumentError::RandomFirst(word)),
            Meaning::Unknown => return Err(ArgumentError::Unknown(word)),
            Meaning::File => {
                options = false;
                arguments.add(word)?;
            }
        }
    }
    if wanted {
        return Err(ArgumentError::NoPicture);
    }
    arguments.with_input()
}

// A picture is written only to a file whose name ends so, or a file that was forgotten would be written over.
fn picture_name(word: &str) -> Result<&str, ArgumentError<'_>>
    ensures ok { IfOk result (λ name. (name.now ≡ word.now) × (is_picture word.now ≡ true)) }
    ensures err { IfErr result (λ error. (error ≡ WrongPicture word.entry) × (is_picture word.now ≡ false)) }
{
    if word == "-" || word.as_bytes().ends_with(b".svg") {
        Ok(word)
    } else {
        Err(ArgumentError::WrongPicture(word))
    }
}

impl<'a> Arguments<'a> {
    fn new(alloc: Global) -> Arguments<'a>
        ensures { view result ≡ nothing_asked }
    {
        Arguments {
            quiet: false,
            check: false,
            picture: None,
            files: Vec::new(alloc),
        }
    }

    // With no file, standard input.
    fn with_input(mut self) -> Result<Request<'a>, ArgumentError<'a>>
        ensures { Answers result (playing (with_input (view self.entry))) }
    {
        if self.files.is_empty() {
            self.add("-")?;
        }
        if self.picture.is_some() && self.files.len() > 1 {
            return Err(ArgumentError::SeveralFiles);
        }
        Ok(Request::Play(self))
    }

    #[tactic(auto, using(crate::proofs::Files::one_more_file))]
    fn add(&mut self, file: &'a str) -> Result<(), ArgumentError<'a>>
        ensures ok { OnOk result (view self.new ≡ with_file (view self.old) file.now) }
        ensures err { IfErr result (λ error. error ≡ NoMemory) }
    {
        self.files.push(file).map_err(|_| ArgumentError::NoMemory)?;
        Ok(())
    }
}

// What a word means where options may come.
#[derive(Clone, Copy)]
enum Meaning {
    Help,
    Version,
    Quiet,
    Check,
    Picture,
    FilesFollow,
    AfterRandom,
    Unknown,
    File,
}

impl Meaning {
    // A minus alone is standard input, and so a file.
    fn of(word: &str) -> Meaning
        ensures { result ≡ meaning_of word.now }
    {
        match word {
            "--help" => Meaning::Help,
            "--version" => Meaning::Version,
            "--quiet" => Meaning::Quiet,
            "--check" => Meaning::Check,
            "--svg" => Meaning::Picture,
            "--" => Meaning::FilesFollow,
            "--random" | "--days" | "--events" | "--trains" | "--controllers" | "--write" => {
                Meaning::AfterRandom
            }
            _ if is_option(word) => Meaning::Unknown,
            _ => Meaning::File,
        }
    }
}

// A minus and more.
fn is_option(word: &str) -> bool
    ensures { result ≡ is_option word.now }
{
    matches!(word.as_bytes(), [b'-', _, ..])
}
