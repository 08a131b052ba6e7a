//! The property that a path is, of the entities at the empty prefix.
ghost use Rattle.std.specs.Prelude.{◌≡◌, ◌<◌, ℕ, IfSome, length, true};
ghost use Rattle.edm_model.specs.LookUps.{IsSet};
ghost use Rattle.row_frames.specs.Frames as spec;
ghost use Rattle.row_frames.specs.Own.{IsOwn};
ghost use Rattle.row_frames.specs.Related.{placed};
ghost use Rattle.row_frames.specs.declared.tables.Pick.{Pick as Pick'};

use crate::hops::{has_set, set_property};
use crate::readers::column_place;
use crate::tables::{Table, roots_set, set_table};
use apply_ast::Path;
use edm_data::Data;
use edm_model::{PropId, SetId};
use std::alloc::Global;

/// The property that the path is in a table that has no column of this path and no other prefix, and the set of the entities.
fn table_property(store: &Data, table: &Table, path: &Path) -> Option<(SetId, PropId)>
    ensures set { IfSome result (λ o. IsSet store.now.model o.0) }
    ensures value { IfSome result (λ o. (k : ℕ) → IsOwn store.now path.now o.0 o.1.at (spec.instance_at table.now k)) }
{
    let [name] = path.names() else {
        return None;
    };
    let Some(set) = roots_set(&table.roots) else {
        return None;
    };
    if table.prefixes.len() > 0 {
        return None;
    }
    if !has_set(store, set) {
        return None;
    }
    if let Some(_c) = column_place(table.columns.as_slice(), path.names()) {
        return None;
    }
    match set_property(store, set, name) {
        Some(p) => Some((set, p)),
        None => None,
    }
}

/// Whether the path is this property of the entities of this set in a table.
fn is_property(store: &Data, table: &Table, path: &Path, set: SetId, p: PropId) -> bool
    ensures { result ≡ true → (k : ℕ) → IsOwn store.now path.now set p.at (spec.instance_at table.now k) }
{
    match table_property(store, table, path) {
        Some((own, q)) => own.place() == set.place() && q.place() == p.place(),
        None => false,
    }
}

/// The property that the path is in all tables, and the set of the entities; none also where there is no table.
pub(crate) fn property_of(store: &Data, tables: &[Table], path: &Path) -> Option<(SetId, PropId)>
    ensures set { IfSome result (λ o. IsSet store.now.model o.0) }
    ensures value { IfSome result (λ o. (x : Pick') → x.table < length tables.now → IsOwn store.now path.now o.0 o.1.at (spec.picked tables.now x)) }
{
    let Some(first) = tables.first() else {
        return None;
    };
    let Some((set, p)) = table_property(store, first, path) else {
        return None;
    };
    for table in tables {
        if !is_property(store, table, path, set, p) {
            return None;
        }
    }
    Some((set, p))
}

/// The property that the path is of the entities of a set, and the set.
pub fn property_in_set(
    alloc: Global,
    store: &Data,
    set: SetId,
    path: &Path,
) -> Option<(SetId, PropId)>
    ensures set { IfSome result (λ o. IsSet store.now.model o.0) }
    ensures value { IfSome result (λ o. (k : ℕ) → IsOwn store.now path.now o.0 o.1.at (placed set k)) }
{
    let table = set_table(alloc, set);
    match table_property(store, &table, path) {
        Some(found) => Some(found),
        None => None,
    }
}
