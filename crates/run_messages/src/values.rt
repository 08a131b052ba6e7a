//! Values of JSON and their kinds, as they are shown.
use edm_values::EdmType;
use quoted_text::quoted_front;
use serde_json::Value;
use std::alloc::{AllocError, Global};

/// How many characters of a text are shown.
const SHOWN: usize = 60;

/// A text of a file, or its front.
pub(crate) fn shown_text(alloc: Global, text: &str) -> Result<String, AllocError> {
    quoted_front(alloc, text, SHOWN)
}

/// What kind of JSON value it is.
pub(crate) fn kind_words(value: &Value) -> &'static str {
    match value {
        Value::Null => "null",
        Value::Bool(_) => "true or false",
        Value::Number(_) => "a number",
        Value::String(_) => "a string",
        Value::Array(_) => "an array",
        Value::Object(_) => "an object",
    }
}

/// A JSON value, or its kind where it has parts.
pub(crate) fn shown_value(alloc: Global, value: &Value) -> Result<String, AllocError> {
    match value {
        Value::String(text) => shown_text(alloc, text.as_str()),
        Value::Array(_) | Value::Object(_) => String::from_str(alloc, kind_words(value)),
        _ => value.to_string(alloc),
    }
}

/// The value of a member of an item, null where it has none.
pub(crate) fn shown_member(alloc: Global, item: &Value, name: &str) -> Result<String, AllocError> {
    match item.get(name) {
        Some(value) => shown_value(alloc, value),
        None => String::from_str(alloc, "null"),
    }
}

/// Which JSON values a property of the type takes.
pub(crate) fn wanted(alloc: Global, kind: EdmType) -> Result<String, AllocError> {
    match kind {
        EdmType::Bool => String::from_str(alloc, "true or false"),
        EdmType::Int => String::from_str(
            alloc,
            "a whole number of 64 bits, as a number or as a string like \"12\"",
        ),
        EdmType::Dec {
            scale: 0,
            precision,
        } => format!(in alloc;
            "a decimal with at most {precision} digits, none of them after the point, as a string like \"12\", or a whole number"
        ),
        EdmType::Dec { scale, precision } => format!(in alloc;
            "a decimal with at most {precision} digits, {scale} of them after the point, as a string like \"1.5\", or a whole number"
        ),
        EdmType::Text => String::from_str(alloc, "a string"),
        EdmType::Day => String::from_str(alloc, "a date as a string YYYY-MM-DD"),
    }
}
