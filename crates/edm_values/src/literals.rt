//! The literals of each type, read as values.
ghost use Rattle.std.specs.Prelude.{◌≡◌, ◌↔◌, IfOk, IfErr, IsErrOf, IsTrue};
ghost use Rattle.edm_values.specs.Literals as spec;
ghost use Rattle.edm_values.specs.Literals.{answer, has_literal, literal, plain_text, Literal, Written, NoLiteral, PastRange};

mod decimal;
mod numerals;

use crate::{Day, EdmType, ReadRefused, Text, Value};
use decimal::read_decimal;
use numerals::{is_numeral, number_below, without_sign};
use std::alloc::Global;

/// Reads a literal of the type. Only a text takes memory.
pub fn read_value(alloc: Global, text: &str, kind: EdmType) -> Result<Value, ReadRefused>
    ensures ok { IfOk result (λ v. literal kind text.now ≡ Written v) }
    ensures shape { IsErrOf result ReadRefused.Shape ↔ (literal kind text.now ≡ NoLiteral) }
    ensures range { IsErrOf result ReadRefused.Range ↔ (literal kind text.now ≡ PastRange) }
    ensures memory { IsErrOf result ReadRefused.Memory → kind ≡ EdmType.Text }
{
    match kind {
        EdmType::Bool => read_boolean(text),
        EdmType::Int => read_integer(text),
        EdmType::Dec { scale, precision } => read_decimal(text.as_bytes(), scale, precision),
        EdmType::Text => read_text(alloc, text),
        EdmType::Day => read_day(text.as_bytes()),
    }
}

/// A printed value reads as itself: this is a law, and the call does nothing.
pub fn printed_value_reads(value: &Value, kind: EdmType)
    requires { IsTrue (has_literal kind value.now) }
    ensures value { literal kind (plain_text value.now) ≡ Written value.now }
{}

fn read_boolean(text: &str) -> Result<Value, ReadRefused>
    ensures { result ≡ answer (spec.boolean_literal text.now) }
{
    match text {
        "true" => Ok(Value::Bool(true)),
        "false" => Ok(Value::Bool(false)),
        _ => Err(ReadRefused::Shape),
    }
}

fn read_integer(text: &str) -> Result<Value, ReadRefused>
    ensures { result ≡ answer (spec.integer_literal text.now) }
{
    if !is_numeral(without_sign(text.as_bytes())) {
        return Err(ReadRefused::Shape);
    }
    match text.parse::<i64>() {
        Ok(n) => Ok(Value::Int(n)),
        Err(_) => Err(ReadRefused::Range),
    }
}

fn read_text(alloc: Global, text: &str) -> Result<Value, ReadRefused>
    ensures ok { IfOk result (λ v. v ≡ Value.Text text.now) }
    ensures err { IfErr result (λ e. e ≡ ReadRefused.Memory) }
{
    let Ok(copy) = String::from_str(alloc, text) else {
        return Err(ReadRefused::Memory);
    };
    match Text::new(copy) {
        Ok(text) => Ok(Value::Text(text)),
        Err(_) => Err(ReadRefused::Memory),
    }
}

/// Whether the text has the form `YYYY-MM-DD`.
fn is_day_text(text: &[u8]) -> bool
    ensures { result ≡ spec.is_day_text text.now }
{
    text.len() == 10
        && is_numeral(&text[0..4])
        && text[4] == b'-'
        && is_numeral(&text[5..7])
        && text[7] == b'-'
        && is_numeral(&text[8..10])
}

fn read_day(text: &[u8]) -> Result<Value, ReadRefused>
    ensures { result ≡ answer (spec.day_literal text.now) }
{
    if !is_day_text(text) {
        return Err(ReadRefused::Shape);
    }
    let Some(year) = number_below(0, &text[0..4], 10_000) else {
        return Err(ReadRefused::Range);
    };
    let Some(month) = number_below(0, &text[5..7], 100) else {
        return Err(ReadRefused::Range);
    };
    let Some(day) = number_below(0, &text[8..10], 100) else {
        return Err(ReadRefused::Range);
    };
    match Day::new(year as i32, month as u8, day as u8) {
        Some(day) => Ok(Value::Day(day)),
        None => Err(ReadRefused::Range),
    }
}
