//! The types of properties.
ghost use Rattle.std.specs.Prelude.{◌≡◌};
ghost use Rattle.serde_json.specs.View.{view};
ghost use Rattle.edm_schema.specs.ModelTrees as spec;

use crate::tree::{
    is_boolean_if_there, is_object_of, is_string_if_there, is_true_at, lacks, text_at_or,
};
use edm_values::{EdmType, PRECISION_MAX, SCALE_MAX};
use serde_json::Value;

/// The name of a property's type.
pub fn kind_name(property: &Value) -> &str
    ensures value { result.now ≡ spec.kind_name (view property.now) }
{
    text_at_or("Edm.String", "$Type", property)
}

/// Whether the property is a decimal.
pub fn is_decimal_property(property: &Value) -> bool
    ensures value { result ≡ spec.is_decimal_property (view property.now) }
{
    kind_name(property) == "Edm.Decimal"
}

/// The whole number, if it is between these two.
fn whole_between(low: u8, high: u8, value: &Value) -> Option<u8>
    ensures { result ≡ spec.whole_between low high (view value.now) }
{
    match value.as_u64() {
        Some(n) => {
            if u64::from(low) <= n && n <= u64::from(high) {
                Some(n as u8)
            } else {
                None
            }
        }
        None => None,
    }
}

/// The precision, from 1 to 18; 18 where the file gives none.
pub fn precision_of(property: &Value) -> Option<u8>
    ensures value { result ≡ spec.precision_of (view property.now) }
{
    match property.get("$Precision") {
        Some(value) => whole_between(1, PRECISION_MAX, value),
        None => Some(PRECISION_MAX),
    }
}

/// The scale, from 0 to 9.
pub fn scale_of(property: &Value) -> Option<u8>
    ensures value { result ≡ spec.scale_of (view property.now) }
{
    match property.get("$Scale") {
        Some(value) => whole_between(0, SCALE_MAX, value),
        None => None,
    }
}

/// The type of decimals of a scale that is at most the precision.
fn decimal_kind(scale: Option<u8>, precision: Option<u8>) -> Option<EdmType>
    ensures { result ≡ spec.decimal_kind scale precision }
{
    match (scale, precision) {
        (Some(scale), Some(precision)) => {
            if scale <= precision {
                Some(EdmType::Dec { scale, precision })
            } else {
                None
            }
        }
        _ => None,
    }
}

/// The type of a property, if it is one of the five.
pub fn kind_of(property: &Value) -> Option<EdmType>
    ensures value { result ≡ spec.kind_of (view property.now) }
{
    match kind_name(property) {
        "Edm.Int64" => Some(EdmType::Int),
        "Edm.Decimal" => decimal_kind(scale_of(property), precision_of(property)),
        "Edm.String" => Some(EdmType::Text),
        "Edm.Date" => Some(EdmType::Day),
        "Edm.Boolean" => Some(EdmType::Bool),
        _ => None,
    }
}

/// Whether the property may be null.
pub fn is_nullable(property: &Value) -> bool
    ensures value { result ≡ spec.is_nullable (view property.now) }
{
    is_true_at("$Nullable", property)
}

/// Whether keys may have the type.
pub fn is_key_kind(kind: EdmType) -> bool
    ensures value { result ≡ spec.is_key_kind kind }
{
    matches!(kind, EdmType::Int | EdmType::Text | EdmType::Day)
}

/// Whether a property has one of the five types.
pub(crate) fn has_property_type(property: &Value) -> bool
    ensures { result ≡ spec.has_property_type (view property.now) }
{
    is_object_of(
        &["$Kind", "$Type", "$Nullable", "$Scale", "$Precision"],
        property,
    ) && is_string_if_there("$Type", property)
        && is_boolean_if_there("$Nullable", property)
        && kind_of(property).is_some()
}

/// Whether only a decimal has a scale or a precision.
pub fn has_scale_in_place(property: &Value) -> bool
    ensures value { result ≡ spec.has_scale_in_place (view property.now) }
{
    is_decimal_property(property) || (lacks("$Scale", property) && lacks("$Precision", property))
}
