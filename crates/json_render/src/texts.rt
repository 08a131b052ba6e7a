//! Values and texts as JSON (JSON Format 4.01, section 7.1).
ghost use Rattle.std.specs.Prelude.{◌≡◌, ◌++◌, ◌∷◌, [], IsTrue, OnOk};
ghost use Rattle.std.specs.Bool.{IsFalse};
ghost use Rattle.std.specs.List.{list_all};
ghost use Rattle.edm_values.specs.Literals.{plain_text};
ghost use Rattle.edm_values.specs.Values.{is_beyond, is_null, seen_value};
ghost use Rattle.json_render.specs.PlainTexts.{is_plain, is_quoted_kind};
ghost use Rattle.json_render.specs.RowTexts.{text_json, value_text};

use edm_values::{Seen, print_value};
use serde_json::Value;
use std::alloc::{AllocError, Global};

/// Whether the byte stands in a JSON string as itself.
fn is_plain(byte: u8) -> bool
    ensures { result ≡ is_plain byte }
{
    byte >= b' ' && byte != b'"' && byte != b'\\'
}

/// Whether every byte of the text stands in a JSON string as itself.
fn is_plain_text(text: &str) -> bool
    ensures { result ≡ list_all is_plain text.now }
{
    text.as_bytes().iter().all(|byte| is_plain(*byte))
}

/// Appends a text as a JSON string.
pub(crate) fn push_text(alloc: Global, text: &str, out: &mut Vec<u8>) -> Result<(), AllocError>
    ensures { OnOk result (out.new.items ≡ out.old.items ++ text_json text.now) }
{
    if is_plain_text(text) {
        return push_plain(text, out);
    }
    let value = Value::String(String::from_str(alloc, text)?);
    let quoted = value.to_vec(alloc)?;
    out.extend_from_slice(quoted.as_slice())
}

/// Appends a text in quotes, none of whose bytes is escaped.
fn push_plain(text: &str, out: &mut Vec<u8>) -> Result<(), AllocError>
    ensures { OnOk result (out.new.items ≡ out.old.items ++ 34 ∷ (text.now ++ 34 ∷ [])) }
{
    out.push(b'"')?;
    out.extend_from_slice(text.as_bytes())?;
    out.push(b'"')?;
    Ok(())
}

/// Appends a number or a day as a JSON string.
fn push_quoted(value: Seen<'_>, out: &mut Vec<u8>) -> Result<(), AllocError>
    requires { IsTrue (is_quoted_kind (seen_value value)) }
    ensures { OnOk result (out.new.items ≡ out.old.items ++ value_text (seen_value value.entry)) }
{
    out.push(b'"')?;
    print_value(value, out)?;
    out.push(b'"')?;
    Ok(())
}

/// Appends a value as JSON.
pub(crate) fn push_value(
    alloc: Global,
    value: Seen<'_>,
    out: &mut Vec<u8>,
) -> Result<(), AllocError>
    requires { IsFalse (is_beyond (seen_value value)) }
    ensures { OnOk result (out.new.items ≡ out.old.items ++ value_text (seen_value value.entry)) }
{
    match value {
        Seen::Null => out.extend_from_slice(b"null"),
        Seen::Bool(true) => out.extend_from_slice(b"true"),
        Seen::Bool(false) => out.extend_from_slice(b"false"),
        Seen::Text(text) => push_text(alloc, text, out),
        Seen::Int(_) | Seen::Dec(_) | Seen::Day(_) => push_quoted(value, out),
        Seen::Beyond => unreachable!(),
    }
}
