//! Patterns of rows: which prefixes and columns a row has, and of which sets its entities are.
ghost use Rattle.std.specs.Prelude.{◌≡◌, map, option_map, true};
ghost use Rattle.json_render.specs.RowTexts.{SamePattern, column_path, prefix_set};

use apply_ast::Path;
use apply_meaning::Row;
use context_typing::same_path;
use edm_data::EntityRef;
use edm_values::Value;

/// Whether both are none, or entities of one set.
fn same_set(a: Option<EntityRef>, b: Option<EntityRef>) -> bool
    ensures { result ≡ true → option_map (λ e. e.set) a ≡ option_map (λ e. e.set) b }
{
    match (a, b) {
        (Some(a), Some(b)) => a.set == b.set,
        (None, None) => true,
        _ => false,
    }
}

/// Whether the prefixes have the same paths, and entities of the same sets, in the same order.
fn same_prefixes(a: &[(Path, Option<EntityRef>)], b: &[(Path, Option<EntityRef>)]) -> bool
    ensures { result ≡ true → map prefix_set a.now ≡ map prefix_set b.now }
{
    if a.len() != b.len() {
        return false;
    }
    for (k, prefix) in a.iter().enumerate() {
        if !same_path(prefix.0.names(), b[k].0.names()) || !same_set(prefix.1, b[k].1) {
            return false;
        }
    }
    true
}

/// Whether the columns have the same paths in the same order.
fn same_columns(a: &[(Path, Value)], b: &[(Path, Value)]) -> bool
    ensures { result ≡ true → map column_path a.now ≡ map column_path b.now }
{
    if a.len() != b.len() {
        return false;
    }
    for (k, column) in a.iter().enumerate() {
        if !same_path(column.0.names(), b[k].0.names()) {
            return false;
        }
    }
    true
}

/// Whether the rows have the same columns and prefixes in the same order, with entities of the same sets.
pub(crate) fn same_rows(a: &Row, b: &Row) -> bool
    ensures { result ≡ true → SamePattern a.now b.now }
{
    same_set(a.root(), b.root())
        && same_columns(a.columns(), b.columns())
        && same_prefixes(a.prefixes(), b.prefixes())
}
