//! JSON values of properties.
ghost use Rattle.std.specs.Prelude.{◌≡◌, ◌*ℤ◌, ◌^◌, pos, if◌then◌else◌, option_map, Some, None, IfOk, IsTrue};
ghost use Rattle.serde_json.specs.Data.{boolean, string};
ghost use Rattle.serde_json.specs.View.{view};
ghost use Rattle.edm_values.specs.Literals.{decimal_in_range};
ghost use Rattle.edm_values.specs.Values.{is_text, seen_value};
ghost use Rattle.edm_model.specs.Soundness.{is_declared_kind};
ghost use Rattle.edm_data.specs.DataFile as file;
ghost use Rattle.edm_data.specs.DataFile.{written, whole_value};

use edm_values::{Dec, EdmType, ReadRefused, Seen, Value, read_value};
use serde_json::Value as Json;
use std::alloc::{AllocError, Global};

/// The value as it is seen, where it holds no memory.
fn without_memory(value: Value) -> Option<Seen<'static>>
    ensures { option_map seen_value result ≡ (if is_text value then None else Some value) }
{
    match value {
        Value::Null => Some(Seen::Null),
        Value::Bool(flag) => Some(Seen::Bool(flag)),
        Value::Int(n) => Some(Seen::Int(n)),
        Value::Dec(d) => Some(Seen::Dec(d)),
        Value::Text(_) => None,
        Value::Day(d) => Some(Seen::Day(d)),
        Value::Beyond => Some(Seen::Beyond),
    }
}

/// The value of a text, where it is a literal of the type; a Boolean has none.
fn text_value<'a>(
    alloc: Global,
    kind: EdmType,
    text: &'a str,
) -> Result<Option<Seen<'a>>, AllocError>
    ensures { IfOk result (λ v. option_map seen_value v ≡ file.json_value kind (string text.now)) }
{
    match kind {
        EdmType::Bool => return Ok(None),
        EdmType::Text => return Ok(Some(Seen::Text(text))),
        _ => {}
    }
    match read_value(alloc, text, kind) {
        Ok(value) => Ok(without_memory(value)),
        Err(ReadRefused::Memory) => Err(AllocError),
        Err(_) => Ok(None),
    }
}

/// The decimal of this scale that a whole number is, where it keeps the precision.
fn scaled_value(n: i64, scale: u8, precision: u8) -> Option<Seen<'static>>
    requires { IsTrue (is_declared_kind (EdmType.Dec scale precision)) }
    ensures { option_map seen_value result ≡ written (decimal_in_range scale precision (n *ℤ pos (10 ^ scale))) }
{
    let Some(m) = n.checked_mul(10i64.pow(u32::from(scale))) else {
        return None;
    };
    if m.unsigned_abs() >= 10u64.pow(u32::from(precision)) {
        return None;
    }
    match Dec::new(m, scale) {
        Some(decimal) => Some(Seen::Dec(decimal)),
        None => None,
    }
}

/// The value of the type that a whole number is.
fn number_value(kind: EdmType, n: i64) -> Option<Seen<'static>>
    requires { IsTrue (is_declared_kind kind) }
    ensures { option_map seen_value result ≡ whole_value kind n }
{
    match kind {
        EdmType::Int => Some(Seen::Int(n)),
        EdmType::Dec { scale, precision } => scaled_value(n, scale, precision),
        _ => None,
    }
}

/// The value of the type that JSON which is not null is.
pub(crate) fn json_value<'a>(
    alloc: Global,
    kind: EdmType,
    value: &'a Json,
) -> Result<Option<Seen<'a>>, AllocError>
    requires { IsTrue (is_declared_kind kind) }
    ensures { IfOk result (λ v. option_map seen_value v ≡ file.json_value kind (view value.now)) }
{
    if let Some(text) = value.as_str() {
        return text_value(alloc, kind, text);
    }
    if let Some(flag) = value.as_bool() {
        return Ok(match kind {
            EdmType::Bool => Some(Seen::Bool(flag)),
            _ => None,
        });
    }
    match value.as_i64() {
        Some(n) => Ok(number_value(kind, n)),
        None => Ok(None),
    }
}
