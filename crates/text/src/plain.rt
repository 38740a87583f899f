//! Words that stand as they would be written, with one blank between them: most lines of most files. They are read in one
//! pass, where numbers are short.
ghost use Rattle.text.specs.Numbers.{IsNumber};
ghost use Rattle.text.specs.Plain.{AreDigits, IsShort, NoDigit, NoNumber};
ghost use Rattle.text.specs.Written.{line_text};
ghost use Rattle.std.specs.Char.{digit_value};
ghost use Rattle.std.specs.Prelude.{◌≡◌, ◌≢◌, ◌∷◌, ◌++◌, ◌≤◌, ℕ, List, [], IfNone, IfSome, decimal, drop, length};

// Longer numbers are not read here.
const LONG: u64 = 1_000_000_000_000;

/// What comes after a word and a blank, in a text that begins with them.
#[tactic(auto, using(crate::proofs::OnePass::same_rest))]
pub fn after<'a>(text: &'a [u8], word: &[u8]) -> Option<&'a [u8]>
    ensures written { IfSome result (λ rest. text.now ≡ word.now ++ 32 ∷ rest.now) }
    ensures only { IfSome result (λ rest. (more : List ℕ) → text.now ≡ word.now ++ 32 ∷ more → rest.now ≡ more) }
    ensures none { IfNone result ((more : List ℕ) → text.now ≢ word.now ++ 32 ∷ more) }
{
    match without(text, word)? {
        [b' ', rest @ ..] => Some(rest),
        _ => None,
    }
}

fn without<'a>(text: &'a [u8], word: &[u8]) -> Option<&'a [u8]>
    ensures written { IfSome result (λ rest. text.now ≡ word.now ++ rest.now) }
    ensures none { IfNone result ((more : List ℕ) → text.now ≢ word.now ++ more) }
{
    text.strip_prefix(word)
}

/// A number, and what comes after the blank after it.
pub fn number(text: &[u8]) -> Option<(u64, &[u8])>
    ensures written { IfSome result (λ found. text.now ≡ decimal found.0 ++ 32 ∷ found.1.now) }
    ensures only { IfSome result (λ found. (n : ℕ) (rest : List ℕ) → IsShort n → text.now ≡ decimal n ++ 32 ∷ rest → (found.0 ≡ n) × (found.1.now ≡ rest)) }
    ensures none { IfNone result ((n : ℕ) (rest : List ℕ) → IsShort n → text.now ≢ decimal n ++ 32 ∷ rest) }
{
    match digits(text)? {
        (number, [b' ', rest @ ..]) => Some((number, rest)),
        _ => None,
    }
}

/// A number that ends a line, and what comes after the line.
#[tactic(auto, using(crate::proofs::OnePass::last_word))]
pub fn last_number(text: &[u8]) -> Option<(u64, &[u8])>
    ensures written { IfSome result (λ found. text.now ≡ line_text (decimal found.0 ∷ []) ++ found.1.now) }
    ensures none { IfNone result (NoNumber text.now) }
{
    match digits(text)? {
        (number, [b'\n', rest @ ..]) => Some((number, rest)),
        _ => None,
    }
}

// The number that digits at the beginning write, and what comes after them.
#[tactic(auto, using(crate::proofs::OnePass::no_digit_at, crate::proofs::OnePass::too_long, crate::proofs::OnePass::ends_early))]
fn digits(text: &[u8]) -> Option<(u64, &[u8])>
    ensures written { IfSome result (λ found. text.now ≡ decimal found.0 ++ found.1.now) }
    ensures ends { IfSome result (λ found. NoDigit found.1.now) }
    ensures none { IfNone result ((n end : ℕ) (rest : List ℕ) → IsShort n → 10 ≤ digit_value end → text.now ≢ decimal n ++ end ∷ rest) }
{
    let mut number = 0u64;
    for (count, byte) in text.iter().enumerate() {
        if !byte.is_ascii_digit() {
            return first_digits(text, count, number);
        }
        if number >= LONG {
            return None;
        }
        number = number * 10 + u64::from(*byte - b'0');
    }
    None
}

// There has to be a digit, and no zero before others.
#[tactic(auto, using(crate::proofs::OnePass::digits_written, crate::proofs::OnePass::digits_end, crate::proofs::OnePass::none_at_all, crate::proofs::OnePass::zero_before))]
fn first_digits(text: &[u8], count: usize, number: u64) -> Option<(u64, &[u8])>
    requires few { count ≤ length text.now }
    requires digits { AreDigits text.now count number }
    requires ends { NoDigit (drop count text.now) }
    ensures written { IfSome result (λ found. text.now ≡ decimal found.0 ++ found.1.now) }
    ensures ends { IfSome result (λ found. NoDigit found.1.now) }
    ensures none { IfNone result ((n : ℕ) (rest : List ℕ) → IsNumber n → NoDigit rest → text.now ≢ decimal n ++ rest) }
{
    match count {
        0 => None,
        1 => Some((number, &text[count..])),
        _ if text[0] == b'0' => None,
        _ => Some((number, &text[count..])),
    }
}
