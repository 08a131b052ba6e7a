//! Where the reading of JSON stops, and why.
use crate::values::kind_words;
use serde_json::{Error, Value};
use std::alloc::{AllocError, Global};
use std::str;

/// How deep arrays and objects may stand in one another.
const NESTED_MOST: usize = 127;

/// A place in a text: its line and its column in bytes, both from 1, a column 0 before the first byte of a line.
#[derive(Clone, Copy)]
struct Place {
    line: usize,
    column: usize,
}

/// The place behind a byte.
fn behind(place: Place, byte: u8) -> Place {
    if byte == b'\n' {
        Place {
            line: place.line.saturating_add(1),
            column: 0,
        }
    } else {
        Place {
            line: place.line,
            column: place.column.saturating_add(1),
        }
    }
}

/// How deep the text stands in arrays and objects after a byte. Within a string a byte counts nothing, and one behind a
/// backslash does not end it.
#[derive(Clone, Copy)]
struct Nesting {
    depth: usize,
    in_string: bool,
    is_escaped: bool,
}

/// The nesting behind a byte.
fn deeper(nesting: Nesting, byte: u8) -> Nesting {
    if nesting.in_string {
        return Nesting {
            depth: nesting.depth,
            in_string: nesting.is_escaped || byte != b'"',
            is_escaped: !nesting.is_escaped && byte == b'\\',
        };
    }
    let depth = match byte {
        b'[' | b'{' => nesting.depth.saturating_add(1),
        b']' | b'}' => nesting.depth.saturating_sub(1),
        _ => nesting.depth,
    };
    Nesting {
        depth,
        in_string: byte == b'"',
        is_escaped: false,
    }
}

/// The bytes before a place.
fn bytes_before(bytes: &[u8], end: Place) -> &[u8] {
    let mut place = Place { line: 1, column: 0 };
    for (at, byte) in bytes.iter().enumerate() {
        if (place.line, place.column) >= (end.line, end.column) {
            return bytes.get(..at).unwrap_or(bytes);
        }
        place = behind(place, *byte);
    }
    bytes
}

/// Whether arrays and objects stand too deep in one another somewhere in these bytes.
fn is_too_deep(bytes: &[u8]) -> bool {
    let mut nesting = Nesting {
        depth: 0,
        in_string: false,
        is_escaped: false,
    };
    let mut deepest = 0;
    for byte in bytes {
        nesting = deeper(nesting, *byte);
        deepest = nesting.depth.max(deepest);
    }
    deepest > NESTED_MOST
}

/// Whether bytes are no UTF-8 text, nor the front of one.
fn is_no_text(bytes: &[u8]) -> bool {
    match str::from_utf8(bytes) {
        Ok(_) => false,
        Err(error) => error.error_len().is_some(),
    }
}

/// What the reader of JSON found where it stopped, behind these bytes.
fn found_there(front: &[u8], is_cut_short: bool) -> &'static str {
    if is_no_text(front) {
        "the bytes are no UTF-8 text"
    } else if is_too_deep(front) {
        "arrays and objects stand more than 127 deep in one another"
    } else if is_cut_short {
        "the JSON text ends too early"
    } else {
        "this is no JSON text"
    }
}

/// What bytes are whose front tells that they are no JSON text in UTF-8.
fn other_form(bytes: &[u8]) -> Option<&'static str> {
    if bytes.is_empty() {
        Some("the file is empty")
    } else if bytes.starts_with(b"\xef\xbb\xbf") {
        Some("the file begins with a byte order mark, which must go")
    } else if bytes.starts_with(b"\xff\xfe") || bytes.starts_with(b"\xfe\xff") {
        Some("the file is UTF-16 or UTF-32 text, and must be UTF-8")
    } else if bytes.starts_with(b"{\0") || bytes.starts_with(b"\0") {
        Some("the file has bytes 0, as UTF-16 or UTF-32 text has, and must be UTF-8")
    } else if bytes.starts_with(b"\x1f\x8b") {
        Some("the file is compressed by gzip, and must be JSON text")
    } else if bytes.starts_with(b"PK\x03\x04") {
        Some("the file is a zip archive, as those of spreadsheets are, and must be JSON text")
    } else {
        None
    }
}

/// Why bytes are no JSON text: what they begin with, or where the reader stopped.
fn json_reason(alloc: Global, bytes: &[u8], error: &Error) -> Result<String, AllocError> {
    if let Some(form) = other_form(bytes) {
        return String::from_str(alloc, form);
    }
    let end = Place {
        line: error.line(),
        column: error.column(),
    };
    let found = found_there(bytes_before(bytes, end), error.is_eof());
    let (line, column) = (end.line, end.column);
    format!(in alloc; "line {line}, column {column}: {found}")
}

/// Why bytes are no JSON object. Where they are one, it says that they hold an object.
pub(crate) fn object_reason(alloc: Global, bytes: &[u8]) -> Result<String, AllocError> {
    match Value::from_slice(alloc, bytes) {
        Ok(root) => {
            let kind = kind_words(&root);
            format!(in alloc; "the file holds {kind}, and must hold an object")
        }
        Err(error) if error.is_memory() => Err(AllocError),
        Err(error) => json_reason(alloc, bytes, &error),
    }
}
