//! Files and standard input, read whole.
use std::fmt;
use std::fs::File;
use std::io::{self, BufReader, Read};

#[derive(Debug, Drop)]
pub enum TextError {
    Unread(io::Error),
    // the first byte that is not UTF-8
    NoText { byte: usize },
}

impl From<io::Error> for TextError {
    fn from(error: io::Error) -> Self {
        TextError::Unread(error)
    }
}

impl fmt::Display for TextError {
    fn fmt<W: fmt::Write>(&self, f: &mut fmt::Formatter<W>) -> fmt::Result {
        match self {
            TextError::Unread(error) => write!(f, "cannot be read: {error}"),
            TextError::NoText { byte } => write!(f, "is no text: byte {byte} is not UTF-8"),
        }
    }
}

// The text of the file of this name, or of standard input for '-'.
pub fn read_text(rt: &HostRuntime, name: &str) -> Result<String, TextError> {
    let bytes = if name == "-" {
        read_input(rt)?
    } else {
        read_file(rt, name)?
    };
    match String::from_utf8(bytes) {
        Ok(text) => Ok(text),
        Err(error) => {
            let byte = error.utf8_error().valid_up_to();
            Err(TextError::NoText { byte })
        }
    }
}

fn read_input(rt: &HostRuntime) -> io::Result<Vec<u8>> {
    let mut bytes = Vec::new(rt.alloc());
    BufReader::with_capacity(rt.alloc(), 1 << 16, rt.reader())?.read_to_end(&mut bytes)?;
    Ok(bytes)
}

// Memory is made at once for a file whose size is known. What then comes is read, be it more or less.
fn read_file(rt: &HostRuntime, name: &str) -> io::Result<Vec<u8>> {
    let mut file = File::open(rt, name)?;
    let size = file.metadata()?.len();
    let mut bytes = Vec::with_capacity(rt.alloc(), size as usize)?;
    file.read_to_end(&mut bytes)?;
    Ok(bytes)
}
