//! Simple identifiers.
ghost use Rattle.std.specs.Prelude.{◌≡◌, slice_index};
ghost use Rattle.std.specs.List.{list_all};
ghost use Rattle.edm_values.specs.Names as spec;

/// The longest name, in bytes.
const LENGTH_MAX: usize = 128;

/// Whether the text is a simple identifier and no word of expressions or pipelines.
pub fn is_name(text: &str) -> bool
    ensures value { result ≡ spec.is_name text.now }
{
    let bytes = text.as_bytes();
    begins_as_name(bytes)
        && goes_on_as_name(bytes)
        && bytes.len() <= LENGTH_MAX
        && !is_reserved(text)
}

/// Whether the first byte may begin a name.
fn begins_as_name(text: &[u8]) -> bool
    ensures { result ≡ spec.begins_name (slice_index text.now 0) }
{
    match text.first() {
        Some(byte) => byte.is_ascii_alphabetic() || *byte == b'_',
        None => false,
    }
}

/// Whether every byte may stand in a name.
fn goes_on_as_name(text: &[u8]) -> bool
    ensures { result ≡ list_all spec.goes_on_name text.now }
{
    text.iter()
        .all(|byte| byte.is_ascii_alphanumeric() || *byte == b'_')
}

/// Whether the text is a word of expressions or pipelines.
fn is_reserved(text: &str) -> bool
    ensures { result ≡ spec.is_reserved text.now }
{
    matches!(
        text,
        "and"
            | "or"
            | "not"
            | "eq"
            | "ne"
            | "gt"
            | "ge"
            | "lt"
            | "le"
            | "add"
            | "sub"
            | "mul"
            | "null"
            | "true"
            | "false"
            | "as"
            | "with"
            | "asc"
            | "desc"
    )
}
