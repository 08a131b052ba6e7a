//! Texts of others, such as file names and what files hold, as they may be shown on a terminal.
//!
//! A character is unprintable that is a control character or stands in a list of others: blanks other than ASCII's, ends of
//! lines and paragraphs, marks of the direction of writing, and characters that show nothing. [`quoted`] writes a text as a
//! JSON string in which each such character stands by its number, [`escaped`] the same without the quotes, and
//! [`quoted_front`] the front of a long text; [`printable`] leaves all other characters of a text as they are. Each equals its
//! definition in `specs/Quoted.antt`, and no unprintable character is left. The crate stands on the standard library alone.
#![tactic(auto)]

ghost use Rattle.std.specs.Prelude.{◌≡◌, ◌%◌, ◌++◌, [], ◌∷◌, IfOk, OnOk, nat_lt, length, take, chars, encode_utf8, encode_utf8_all, string_bytes};
ghost use Rattle.std.specs.Char.{digit_char};
ghost use Rattle.std.specs.Int.{is_in_range};
ghost use Rattle.std.specs.List.{list_any};
ghost use Rattle.quoted_text.specs.Quoted.{IsPrintable, by_number, escape, escape_all, is_unprintable, letter_of, quote, quote_front, show, show_all, unit_number};

use std::alloc::{AllocError, Global};

/// The characters besides control characters that are shown by their numbers, from the first to the last of each row: blanks
/// other than ASCII's, ends of lines and paragraphs, marks of the direction of writing, and characters that show nothing.
const UNPRINTABLE: [(char, char); 23] = [
    ('\u{a0}', '\u{a0}'),
    ('\u{ad}', '\u{ad}'),
    ('\u{34f}', '\u{34f}'),
    ('\u{61c}', '\u{61c}'),
    ('\u{115f}', '\u{1160}'),
    ('\u{1680}', '\u{1680}'),
    ('\u{17b4}', '\u{17b5}'),
    ('\u{180b}', '\u{180f}'),
    ('\u{2000}', '\u{200f}'),
    ('\u{2028}', '\u{202f}'),
    ('\u{205f}', '\u{206f}'),
    ('\u{2800}', '\u{2800}'),
    ('\u{3000}', '\u{3000}'),
    ('\u{3164}', '\u{3164}'),
    ('\u{fe00}', '\u{fe0f}'),
    ('\u{feff}', '\u{feff}'),
    ('\u{ffa0}', '\u{ffa0}'),
    ('\u{fff0}', '\u{fffb}'),
    ('\u{1bca0}', '\u{1bca3}'),
    ('\u{1d173}', '\u{1d17a}'),
    ('\u{e0001}', '\u{e0001}'),
    ('\u{e0020}', '\u{e007f}'),
    ('\u{e0100}', '\u{e01ef}'),
];

/// Whether a character is among those from the first to the last.
fn is_between(first: char, c: char, last: char) -> bool
    ensures { result ≡ is_in_range first last c }
{
    first <= c && c <= last
}

/// Whether a character is among those of some row.
fn is_in_rows(c: char, rows: &[(char, char)]) -> bool
    ensures { result ≡ list_any (λ r. is_in_range r.0 r.1 c) rows.now }
{
    rows.iter().any(|row| is_between(row.0, c, row.1))
}

/// Whether a character is shown by its number.
fn is_unprintable(c: char) -> bool
    ensures { result ≡ is_unprintable c }
{
    c.is_control() || is_in_rows(c, &UNPRINTABLE)
}

/// The last digit of a number in base sixteen.
fn last_digit(n: u32) -> char
    ensures { result ≡ digit_char (n % 16) }
{
    match char::from_digit(n % 16, 16) {
        Some(digit) => digit,
        None => '0',
    }
}

/// Appends a character.
fn push(c: char, out: &mut String) -> Result<(), AllocError>
    ensures { OnOk result (string_bytes out.new ≡ string_bytes out.old ++ encode_utf8 c) }
{
    out.push(c)
}

/// Appends a unit of UTF-16 by its number.
fn push_unit(unit: u32, out: &mut String) -> Result<(), AllocError>
    ensures { OnOk result (string_bytes out.new ≡ string_bytes out.old ++ encode_utf8_all (unit_number unit)) }
{
    push('\\', out)?;
    push('u', out)?;
    push(last_digit(unit / 4096), out)?;
    push(last_digit(unit / 256), out)?;
    push(last_digit(unit / 16), out)?;
    push(last_digit(unit), out)
}

/// Appends a character by the number of its unit in UTF-16, or by those of both.
fn push_number(c: char, out: &mut String) -> Result<(), AllocError>
    ensures { OnOk result (string_bytes out.new ≡ string_bytes out.old ++ encode_utf8_all (by_number c)) }
{
    let n = c as u32;
    if n < 0x1_0000 {
        return push_unit(n, out);
    }
    let over = n - 0x1_0000;
    push_unit(0xD800 + over / 0x400, out)?;
    push_unit(0xDC00 + over % 0x400, out)
}

/// Appends a character, by its number where it is unprintable.
fn push_shown(c: char, out: &mut String) -> Result<(), AllocError>
    ensures { OnOk result (string_bytes out.new ≡ string_bytes out.old ++ encode_utf8_all (show c)) }
{
    if is_unprintable(c) {
        push_number(c, out)
    } else {
        push(c, out)
    }
}

/// The character that stands behind a backslash for this one, if there is one.
fn letter_of(c: char) -> Option<char>
    ensures { result ≡ letter_of c }
{
    match c {
        '"' => Some('"'),
        '\\' => Some('\\'),
        '\n' => Some('n'),
        '\r' => Some('r'),
        '\t' => Some('t'),
        _ => None,
    }
}

/// Appends a character as it stands in a JSON string.
fn push_escaped(c: char, out: &mut String) -> Result<(), AllocError>
    ensures { OnOk result (string_bytes out.new ≡ string_bytes out.old ++ encode_utf8_all (escape c)) }
{
    match letter_of(c) {
        Some(letter) => {
            push('\\', out)?;
            push(letter, out)
        }
        None => push_shown(c, out),
    }
}

/// The text with each unprintable character by its number, and all others as they are.
pub fn printable(alloc: Global, text: &str) -> Result<String, AllocError>
    ensures value { IfOk result (λ t. string_bytes t ≡ show_all (chars text.now)) }
    ensures printable { IfOk result (λ t. IsPrintable (string_bytes t)) }
{
    let mut out = String::new(alloc);
    for c in text.chars() {
        push_shown(c, &mut out)?;
    }
    Ok(out)
}

/// What stands between the quotes of a JSON string of the text.
pub fn escaped(alloc: Global, text: &str) -> Result<String, AllocError>
    ensures value { IfOk result (λ t. string_bytes t ≡ escape_all (chars text.now)) }
    ensures printable { IfOk result (λ t. IsPrintable (string_bytes t)) }
{
    let mut out = String::new(alloc);
    for c in text.chars() {
        push_escaped(c, &mut out)?;
    }
    Ok(out)
}

/// What stands between quotes, in quotes.
fn in_quotes(alloc: Global, inner: &str) -> Result<String, AllocError>
    ensures { IfOk result (λ t. string_bytes t ≡ 34 ∷ inner.now ++ 34 ∷ []) }
{
    format!(in alloc; "\"{inner}\"")
}

/// The text as a JSON string.
pub fn quoted(alloc: Global, text: &str) -> Result<String, AllocError>
    ensures value { IfOk result (λ t. string_bytes t ≡ quote (chars text.now)) }
    ensures printable { IfOk result (λ t. IsPrintable (string_bytes t)) }
{
    let inner = escaped(alloc, text)?;
    in_quotes(alloc, inner.as_str())
}

/// The front of the text, of so many characters at most, as it stands in a JSON string, and whether more follow.
fn escaped_front(alloc: Global, text: &str, most: usize) -> Result<(String, bool), AllocError>
    ensures front { IfOk result (λ p. string_bytes p.0 ≡ escape_all (take most (chars text.now))) }
    ensures more { IfOk result (λ p. p.1 ≡ nat_lt most (length (chars text.now))) }
{
    let mut out = String::new(alloc);
    let mut rest = text.chars();
    let mut left = most;
    while left > 0 {
        let Some(c) = rest.next() else {
            return Ok((out, false));
        };
        push_escaped(c, &mut out)?;
        left -= 1;
    }
    Ok((out, rest.next().is_some()))
}

/// The front of the text as a JSON string, at most so many characters, with three points behind it where more follow.
pub fn quoted_front(alloc: Global, text: &str, most: usize) -> Result<String, AllocError>
    ensures value { IfOk result (λ t. string_bytes t ≡ quote_front most (chars text.now)) }
    ensures printable { IfOk result (λ t. IsPrintable (string_bytes t)) }
{
    let (front, has_more) = escaped_front(alloc, text, most)?;
    let mut out = in_quotes(alloc, front.as_str())?;
    if has_more {
        out.push_str("...")?;
    }
    Ok(out)
}
