//! The parts of a line: numbers, words that stand for themselves, and its end.
ghost use Rattle.text.specs.Plain.{IsPlain};
ghost use Rattle.text.specs.Numbers.{IsNumber};
ghost use Rattle.text.specs.Words.{words};
ghost use Rattle.std.specs.Bool.{Decides};
ghost use Rattle.std.specs.Prelude.{◌≡◌, ◌≤◌, ◌^◌, ◌∷◌, ℕ, List, [], IfNone, IfSome, decimal, ◌≢◌};

use crate::words::next_word;

/// The number that a word writes, if it writes one.
#[tactic(auto, using(crate::proofs::Decimals::number_written, crate::proofs::Decimals::not_plain, crate::proofs::Decimals::unwritten))]
pub fn number(word: &str) -> Option<u64>
    ensures some { IfSome result (λ n. word.now ≡ decimal n) }
    ensures none { IfNone result ((n : ℕ) → IsNumber n → word.now ≢ decimal n) }
{
    if !is_plain(word) {
        return None;
    }
    word.parse::<u64>().ok()
}

// Whether it has no plus before it, and no zero before other digits.
fn is_plain(word: &str) -> bool
    ensures { Decides result (IsPlain word.now) }
{
    !matches!(word.as_bytes(), [b'+', ..] | [b'0', _, ..])
}

/// The number that a line begins with, and what comes after it.
pub fn next_number(line: &str) -> Option<(u64, &str)>
    ensures some { IfSome result (λ found. words line.now ≡ decimal found.0 ∷ words found.1.now) }
    ensures none { IfNone result ((n : ℕ) (rest : List (List ℕ)) → IsNumber n → words line.now ≢ decimal n ∷ rest) }
{
    let (word, rest) = next_word(line)?;
    let number = number(word)?;
    Some((number, rest))
}

/// What comes after a word, in a line that begins with it.
pub fn after<'a>(line: &'a str, wanted: &str) -> Option<&'a str>
    ensures some { IfSome result (λ rest. words line.now ≡ wanted.now ∷ words rest.now) }
    ensures none { IfNone result ((rest : List (List ℕ)) → words line.now ≢ wanted.now ∷ rest) }
{
    let (word, rest) = next_word(line)?;
    if word == wanted { Some(rest) } else { None }
}

/// Whether a line has no word.
pub fn is_empty(line: &str) -> bool
    ensures { Decides result (words line.now ≡ []) }
{
    next_word(line).is_none()
}
