//! Words as they may stand in SVG.

use std::alloc::AllocError;

/// A text with entities for what SVG would read as its own, and a sign in the place of what may not stand in it.
pub fn write_escaped(out: &mut String, text: &str) -> Result<(), AllocError> {
    for sign in text.chars() {
        write_sign(out, sign)?;
    }
    Ok(())
}

/// A text that has at most so many signs, and of a longer one its last.
pub fn write_end_of(out: &mut String, text: &str, most: usize) -> Result<(), AllocError> {
    let signs = text.chars().count();
    if signs <= most {
        return write_escaped(out, text);
    }
    out.push('…')?;
    for sign in text.chars().skip(signs - most + 1) {
        write_sign(out, sign)?;
    }
    Ok(())
}

fn write_sign(out: &mut String, sign: char) -> Result<(), AllocError> {
    match sign {
        '&' => out.push_str("&amp;"),
        '<' => out.push_str("&lt;"),
        '>' => out.push_str("&gt;"),
        '\u{fffe}' | '\u{ffff}' => out.push('\u{fffd}'),
        _ if sign.is_control() => out.push('\u{fffd}'),
        _ => out.push(sign),
    }
}

/// A longer text than so many bytes up to its last blank among them, and what follows that.
pub fn broken(text: &str, most: usize) -> (&str, &str) {
    if text.len() <= most {
        return (text, "");
    }
    for at in (0..most).rev() {
        if let Some((first, rest)) = text.split_at_checked(at) {
            if let Some(rest) = rest.strip_prefix(' ') {
                return (first, rest);
            }
        }
    }
    (text, "")
}
