//! The values of paths on rows.
ghost use Rattle.std.specs.Prelude.{◌≡◌, ℕ, List, [], ◌∷◌, ◌++◌, IsTrue, option_map, option_and_then, unwrap_or, IfSome};
ghost use Rattle.edm_values.specs.declared.Value.{Value};
ghost use Rattle.edm_values.specs.Values.{seen_value};
ghost use Rattle.edm_model.specs.LookUps.{IsSet};
ghost use Rattle.apply_meaning.specs.Instances as spec;
ghost use Rattle.context_typing.specs.Paths.{at_path};
ghost use Rattle.apply_meaning.specs.RowViews.{is_of};

use crate::Row;
use apply_ast::{Name, Path};
use context_typing::same_path;
use edm_data::{Data, EntityRef};
use edm_values::{Seen, Value};

/// The value of the column of this path.
fn column_at<'a>(columns: &'a [(Path, Value)], names: &[Name]) -> Option<&'a Value>
    ensures { option_map (λ v. v.now) result ≡ option_map (λ c. c.1) (at_path (λ c. c.0) columns.now names.now) }
{
    for column in columns {
        if same_path(column.0.names(), names) {
            return Some(&column.1);
        }
    }
    None
}

/// What stands at the prefix of this path.
fn prefix_at(prefixes: &[(Path, Option<EntityRef>)], names: &[Name]) -> Option<Option<EntityRef>>
    ensures { result ≡ option_map (λ x. x.1) (at_path (λ x. x.0) prefixes.now names.now) }
{
    for prefix in prefixes {
        if same_path(prefix.0.names(), names) {
            return Some(prefix.1);
        }
    }
    None
}

/// What a property of this name holds on an entity; null where there is none.
fn named_value<'a>(store: &'a Data, e: EntityRef, name: &Name) -> Seen<'a>
    requires { IsSet store.now.model e.set }
    ensures { seen_value result ≡ unwrap_or (spec.named_value store.now name.now e) Value.Null }
{
    let model = store.model();
    match model.prop_named(model.set_type(e.set), name.text()) {
        Some(p) => store.property(e, p),
        None => Seen::Null,
    }
}

/// What an entity refers to by a single-valued navigation property of this name.
fn named_reference(store: &Data, e: EntityRef, name: &Name) -> Option<EntityRef>
    requires { IsSet store.now.model e.set }
    ensures value { result ≡ spec.named_reference store.now name.now e }
    ensures there { IfSome result (λ x. IsSet store.now.model x.set) }
{
    let model = store.model();
    let n = model.nav_named(model.set_type(e.set), name.text())?;
    store.follow(e, n)
}

/// The entity that single-valued navigation properties of these names lead to, one after the other: a path of these names
/// and one more leads to what its last name leads to from there.
fn entity_behind(store: &Data, e: EntityRef, names: &[Name]) -> Option<EntityRef>
    requires { IsSet store.now.model e.set }
    ensures value { (n : List ℕ) → spec.value_behind store.now (names.now ++ n ∷ []) e ≡ option_and_then (spec.named_value store.now n) result }
    ensures there { IfSome result (λ x. IsSet store.now.model x.set) }
{
    let mut at = e;
    for name in names {
        at = named_reference(store, at, name)?;
    }
    Some(at)
}

/// What a path leads to from an entity; null where a reference is null or the rest names no property.
fn value_on<'a>(store: &'a Data, e: EntityRef, names: &[Name]) -> Seen<'a>
    requires { IsSet store.now.model e.set }
    ensures { seen_value result ≡ spec.value_on store.now e names.now }
{
    let Some((last, front)) = names.split_last() else {
        return Seen::Null;
    };
    match entity_behind(store, e, front) {
        Some(at) => named_value(store, at, last),
        None => Seen::Null,
    }
}

/// What a path leads to from what stands at a prefix; null where that is no entity.
pub fn value_behind<'a>(store: &'a Data, bound: Option<EntityRef>, names: &[Name]) -> Seen<'a>
    requires { IfSome bound (λ e. IsSet store.now.model e.set) }
    ensures value { seen_value result ≡ unwrap_or (option_and_then (spec.value_behind store.now names.now) bound) Value.Null }
{
    match bound {
        Some(e) => value_on(store, e, names),
        None => Seen::Null,
    }
}

/// What a path leads to from the entity at its longest front that is a prefix of the row.
fn prefix_value<'a>(store: &'a Data, row: &Row, names: &[Name]) -> Seen<'a>
    requires { IsTrue (is_of store.now row.now) }
    ensures { seen_value result ≡ unwrap_or (spec.prefix_value store.now row.now names.now) Value.Null }
{
    for k in (0..names.len()).rev() {
        if let Some(bound) = prefix_at(row.prefixes(), &names[..k + 1]) {
            return value_behind(store, bound, &names[k + 1..]);
        }
    }
    value_behind(store, row.root(), names)
}

/// The value of a path on a row: its column's, or else what it leads to from the entity at its longest prefix. No
/// memory is taken.
pub fn lookup<'a>(store: &'a Data, row: &'a Row, path: &Path) -> Seen<'a>
    requires { IsTrue (is_of store.now row.now) }
    ensures value { seen_value result ≡ spec.lookup store.now row.now path.now }
{
    let names = path.names();
    match column_at(row.columns(), names) {
        Some(value) => value.seen(),
        None => prefix_value(store, row, names),
    }
}
