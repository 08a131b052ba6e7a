//! Digits and signs.
ghost use Rattle.std.specs.Prelude.{◌≡◌, ◌<◌, ◌≤◌, ◌^◌, IsTrue, take, drop};
ghost use Rattle.std.specs.Char.{is_digit};
ghost use Rattle.std.specs.List.{list_all};
ghost use Rattle.std.specs.Str.Parse.{digits_value_after, without_leading_sign, starts_with_minus};
ghost use Rattle.edm_values.specs.Literals as spec;
ghost use Rattle.edm_values.specs.Numerals.{below};

/// Whether the text is one or more decimal digits.
pub(crate) fn is_numeral(text: &[u8]) -> bool
    ensures { result ≡ spec.is_digits text.now }
{
    !text.is_empty() && are_digits(text)
}

fn are_digits(text: &[u8]) -> bool
    ensures { result ≡ list_all (λ b. is_digit b 10) text.now }
{
    text.iter().all(|byte| char::from(*byte).is_digit(10))
}

/// Whether the text begins with a minus.
pub(crate) fn is_negative(text: &[u8]) -> bool
    ensures { result ≡ starts_with_minus text.now }
{
    match text.first() {
        Some(byte) => *byte == b'-',
        None => false,
    }
}

/// The text without one sign at its front.
pub(crate) fn without_sign(text: &[u8]) -> &[u8]
    ensures { result.now ≡ without_leading_sign text.now }
{
    match text {
        [b'-' | b'+', rest @ ..] => rest,
        _ => text,
    }
}

/// The first bytes of a text, at most so many.
pub(crate) fn first_bytes(text: &[u8], count: usize) -> &[u8]
    ensures { result.now ≡ take count text.now }
{
    if count < text.len() {
        return &text[..count];
    }
    text
}

/// The text without so many first bytes.
pub(crate) fn later_bytes(text: &[u8], count: usize) -> &[u8]
    ensures { result.now ≡ drop count text.now }
{
    if count < text.len() {
        return &text[count..];
    }
    &[]
}

/// The number of these digits behind those of `start`, if it is below the limit.
pub(crate) fn number_below(start: u128, digits: &[u8], limit: u128) -> Option<u128>
    requires starts { start < limit }
    requires small { limit ≤ 2 ^ 64 }
    requires digits { IsTrue (list_all (λ b. is_digit b 10) digits.now) }
    ensures { result ≡ below limit (digits_value_after 10 start digits.now) }
{
    let mut number = start;
    for digit in digits {
        number = number * 10 + u128::from(*digit - b'0');
        if number >= limit {
            return None;
        }
    }
    Some(number)
}
