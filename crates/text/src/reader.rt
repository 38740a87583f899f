//! What is left of a text that is read line after line.
ghost use Rattle.std.specs.Prelude.{◌<◌, ◌+◌, ◌^◌, length};

/// The rest of a text, and the number of its first line, counted from 0 in the whole text.
#[derive(Clone, Copy)]
pub struct Reader<'a> {
    pub rest: &'a str,
    pub line: u64,
    ghost few: { line + length rest.now < 2 ^ 64 },
}
