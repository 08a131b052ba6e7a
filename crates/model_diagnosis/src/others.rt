//! Members that no rule names.
ghost use Rattle.std.specs.Prelude.{◌≡◌, true, map, IfSome, IfNone};
ghost use Rattle.serde_json.specs.View.{view};
ghost use Rattle.model_diagnosis.specs.Faults.{has_other};
ghost use Rattle.model_diagnosis.specs.Searched.{has_only};

use edm_schema::names::{is_one_of, is_unread};
use serde_json::Value;

/// The name of the first member of an object that is read and has none of these names.
pub(crate) fn other_member<'v>(names: &[&str], value: &'v Value) -> Option<&'v str>
    ensures found { IfSome result (λ n. has_other (map (λ m. m.now) names.now) (view value.now) n.now ≡ true) }
    ensures none { IfNone result (has_only (map (λ m. m.now) names.now) (view value.now) ≡ true) }
{
    let members = value.as_object()?;
    for (name, _) in members {
        if !is_unread(name) && !is_one_of(names, name) {
            return Some(name.as_str());
        }
    }
    None
}
