//! The identifiers of entities as texts.
ghost use Rattle.std.specs.Prelude.{◌≡◌, IfOk, IsFalse, string_bytes};
ghost use Rattle.edm_values.specs.Literals.{plain_text};
ghost use Rattle.edm_values.specs.Values.{is_beyond, is_null, is_text, seen_value};
ghost use Rattle.edm_model.specs.LookUps.{IsSet};
ghost use Rattle.edm_data.specs.References.{key};

use edm_data::{Data, EntityRef};
use edm_values::{Seen, print_value};
use std::alloc::{AllocError, Global};

/// The plain text of a Boolean, a number or a day.
fn printed(alloc: Global, value: Seen<'_>) -> Result<String, AllocError>
    requires null { IsFalse (is_null (seen_value value)) }
    requires beyond { IsFalse (is_beyond (seen_value value)) }
    requires text { IsFalse (is_text (seen_value value)) }
    ensures { IfOk result (λ text. string_bytes text ≡ plain_text (seen_value value.entry)) }
{
    let mut bytes = Vec::new(alloc);
    print_value(value, &mut bytes)?;
    match String::from_utf8(bytes) {
        Ok(text) => Ok(text),
        Err(_) => unreachable!(),
    }
}

/// The plain text of a value, and nothing for null and `Beyond`, which have none.
fn text_of(alloc: Global, value: Seen<'_>) -> Result<String, AllocError>
    ensures { IfOk result (λ text. string_bytes text ≡ plain_text (seen_value value.entry)) }
{
    match value {
        Seen::Null | Seen::Beyond => Ok(String::new(alloc)),
        Seen::Text(text) => String::from_str(alloc, text),
        other => printed(alloc, other),
    }
}

/// The plain text of the identifier of an entity.
pub fn identifier(alloc: Global, store: &Data, e: EntityRef) -> Result<String, AllocError>
    requires { IsSet store.now.model e.set }
    ensures value { IfOk result (λ text. string_bytes text ≡ plain_text (key store.now e)) }
{
    let model = store.model();
    let key = model.key_of(model.set_type(e.set));
    text_of(alloc, store.property(e, key))
}
