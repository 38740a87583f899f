//! The words of a line, one after another.
ghost use Rattle.text.specs.Words.{is_blank, words};
ghost use Rattle.std.specs.Prelude.{◌≡◌, ◌∷◌, [], IfNone, IfSome};
ghost use Rattle.std.specs.List.{position_or_len, prefix_len};

/// Its first word, and what comes after it.
#[tactic(auto, using(crate::proofs::Cuts::no_word, crate::proofs::Cuts::first_word))]
pub fn next_word(line: &str) -> Option<(&str, &str)>
    ensures some { IfSome result (λ found. words line.now ≡ found.0.now ∷ words found.1.now) }
    ensures none { IfNone result (words line.now ≡ []) }
{
    let start = blanks(line);
    let (_, line) = line.split_at(start);
    let length = word_length(line);
    if length == 0 {
        return None;
    }
    Some(line.split_at(length))
}

fn is_blank(byte: u8) -> bool
    ensures { result ≡ is_blank byte }
{
    byte == b' ' || byte == b'\t'
}

// How many blanks and tabs it begins with.
fn blanks(line: &str) -> usize
    ensures { result ≡ prefix_len is_blank line.now }
{
    for (at, byte) in line.as_bytes().iter().enumerate() {
        if !is_blank(*byte) {
            return at;
        }
    }
    line.len()
}

// How many bytes it has before the first blank or tab.
fn word_length(line: &str) -> usize
    ensures { result ≡ position_or_len is_blank line.now }
{
    for (at, byte) in line.as_bytes().iter().enumerate() {
        if is_blank(*byte) {
            return at;
        }
    }
    line.len()
}
