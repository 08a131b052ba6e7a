//! Values that are seen without their memory.
ghost use Rattle.std.specs.Prelude.{◌≡◌, ◌≤◌, IfOk, IsErr, IsTrue};
ghost use Rattle.edm_values.specs.Parts.{scale_max};
ghost use Rattle.edm_values.specs.Values as spec;
ghost use Rattle.edm_values.specs.Values.{is_text, number_part, seen_value};

use crate::{Seen, Text, Value};
use std::alloc::{AllocError, Global};

impl Value {
    /// The value, with its text borrowed.
    pub fn seen(&self) -> Seen<'_>
        ensures value { seen_value result ≡ self.now }
    {
        match self {
            Value::Null => Seen::Null,
            Value::Bool(b) => Seen::Bool(*b),
            Value::Int(n) => Seen::Int(*n),
            Value::Dec(d) => Seen::Dec(*d),
            Value::Text(t) => Seen::Text(t.as_str()),
            Value::Day(d) => Seen::Day(*d),
            Value::Beyond => Seen::Beyond,
        }
    }
}

impl<'a> Seen<'a> {
    /// The value with a copy of its text, which alone takes memory.
    pub fn own(self, alloc: Global) -> Result<Value, AllocError>
        ensures value { IfOk result (λ v. v ≡ seen_value self.entry) }
        ensures memory { IsErr result → IsTrue (is_text (seen_value self.entry)) }
    {
        match self {
            Seen::Null => Ok(Value::Null),
            Seen::Bool(b) => Ok(Value::Bool(b)),
            Seen::Int(n) => Ok(Value::Int(n)),
            Seen::Dec(d) => Ok(Value::Dec(d)),
            Seen::Text(t) => Ok(Value::Text(Text::of(alloc, t)?)),
            Seen::Day(d) => Ok(Value::Day(d)),
            Seen::Beyond => Ok(Value::Beyond),
        }
    }

    /// Whether the value is null.
    pub fn is_null(self) -> bool
        ensures value { result ≡ spec.is_null (seen_value self.entry) }
    {
        matches!(self, Seen::Null)
    }

    /// Whether the value is past the range of its type.
    pub fn is_beyond(self) -> bool
        ensures value { result ≡ spec.is_beyond (seen_value self.entry) }
    {
        matches!(self, Seen::Beyond)
    }

    /// Whether the value is a number.
    pub fn is_number(self) -> bool
        ensures value { result ≡ spec.is_number (seen_value self.entry) }
    {
        matches!(self, Seen::Int(_) | Seen::Dec(_))
    }

    /// The mantissa of a number, an integer being its own; 0 of a value that is no number.
    pub fn mantissa(self) -> i64
        ensures value { result ≡ (number_part (seen_value self.entry)).0 }
    {
        match self {
            Seen::Int(n) => n,
            Seen::Dec(d) => d.mantissa(),
            _ => 0,
        }
    }

    /// The scale of a decimal; 0 of any other value.
    pub fn scale(self) -> u8
        ensures value { result ≡ (number_part (seen_value self.entry)).1 }
        ensures limit { result ≤ scale_max }
    {
        match self {
            Seen::Dec(d) => d.scale(),
            _ => 0,
        }
    }
}
