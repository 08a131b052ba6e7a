//! Blanks, words and single bytes.
ghost use Rattle.std.specs.Prelude.{◌≡◌, ◌≤◌, length, option_map};
ghost use Rattle.edm_values.specs.Lists.{same_text};
ghost use Rattle.edm_values.specs.Names.{goes_on_name};
ghost use Rattle.std.specs.Char.{is_ascii_digit};
ghost use Rattle.apply_ast.specs.Grammar as grammar;
ghost use Rattle.apply_grammar.specs.Reading as reading;

fn is_blank(byte: u8) -> bool
    ensures { result ≡ grammar.is_blank byte }
{
    byte == b' ' || byte == b'\t'
}

fn goes_on(byte: u8) -> bool
    ensures { result ≡ goes_on_name byte }
{
    byte.is_ascii_alphanumeric() || byte == b'_'
}

/// Whether the two have the same bytes.
pub(crate) fn same(a: &[u8], b: &[u8]) -> bool
    ensures { result ≡ same_text a.now b.now }
{
    a == b
}

/// The text without the blanks in front.
pub(crate) fn skip_blanks(text: &[u8]) -> &[u8]
    ensures { result.now ≡ reading.skip_blanks text.now }
{
    for (i, byte) in text.iter().enumerate() {
        if !is_blank(*byte) {
            return text.split_at(i).1;
        }
    }
    &[]
}

/// The letters and digits in front, and what follows them.
pub(crate) fn word_run(text: &[u8]) -> (&[u8], &[u8])
    ensures { reading.run goes_on_name text.now ≡ (result.0.now, result.1.now) }
{
    for (i, byte) in text.iter().enumerate() {
        if !goes_on(*byte) {
            return text.split_at(i);
        }
    }
    (text, &[])
}

/// The digits in front, and what follows them.
pub(crate) fn digit_run(text: &[u8]) -> (&[u8], &[u8])
    ensures { reading.run is_ascii_digit text.now ≡ (result.0.now, result.1.now) }
{
    for (i, byte) in text.iter().enumerate() {
        if !byte.is_ascii_digit() {
            return text.split_at(i);
        }
    }
    (text, &[])
}

/// What follows this byte.
pub(crate) fn after(text: &[u8], byte: u8) -> Option<&[u8]>
    ensures { option_map (λ r. r.now) result ≡ reading.after byte text.now }
{
    let (first, rest) = text.split_first()?;
    if *first == byte { Some(rest) } else { None }
}

/// What follows at least one blank and all others.
#[tactic(auto, unfolding(crate::specs::Reading::blanks_at))]
pub(crate) fn blanks_at(text: &[u8]) -> Option<&[u8]>
    ensures { option_map (λ r. r.now) result ≡ reading.blanks_at text.now }
{
    let (first, rest) = text.split_first()?;
    if is_blank(*first) {
        Some(skip_blanks(rest))
    } else {
        None
    }
}

/// What follows an opening parenthesis and its blanks.
#[tactic(auto, unfolding(crate::specs::Reading::open_at))]
pub(crate) fn open_at(text: &[u8]) -> Option<&[u8]>
    ensures { option_map (λ r. r.now) result ≡ reading.open_at text.now }
{
    Some(skip_blanks(after(text, b'(')?))
}

/// What follows a closing parenthesis, with blanks before it.
#[tactic(auto, unfolding(crate::specs::Reading::close_at))]
pub(crate) fn close_at(text: &[u8]) -> Option<&[u8]>
    ensures { option_map (λ r. r.now) result ≡ reading.close_at text.now }
{
    after(skip_blanks(text), b')')
}

/// What follows a comma with the blanks round it.
#[tactic(auto, unfolding(crate::specs::Reading::comma_at))]
pub(crate) fn comma_at(text: &[u8]) -> Option<&[u8]>
    ensures { option_map (λ r. r.now) result ≡ reading.comma_at text.now }
{
    Some(skip_blanks(after(skip_blanks(text), b',')?))
}

/// What follows this word.
#[tactic(auto, unfolding(crate::specs::Reading::word_behind))]
pub(crate) fn word_behind<'a>(text: &'a [u8], word: &[u8]) -> Option<&'a [u8]>
    ensures { option_map (λ r. r.now) result ≡ reading.word_behind word.now text.now }
{
    let (first, rest) = word_run(text);
    if same(first, word) { Some(rest) } else { None }
}

/// What follows this word with blanks on both sides.
#[tactic(auto, unfolding(crate::specs::Reading::between_blanks))]
pub(crate) fn between_blanks<'a>(text: &'a [u8], word: &[u8]) -> Option<&'a [u8]>
    ensures { option_map (λ r. r.now) result ≡ reading.between_blanks word.now text.now }
{
    blanks_at(word_behind(blanks_at(text)?, word)?)
}
