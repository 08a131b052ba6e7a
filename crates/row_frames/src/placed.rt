//! Rows of tables that are told by places among the picks.
ghost use Rattle.std.specs.Prelude.{◌≡◌, ◌+◌, ◌≤◌, ◌<◌, IsTrue, IfOk, get_or, length, map, nat_lt};
ghost use Rattle.std.specs.List.{All, list_all};
ghost use Rattle.edm_values.specs.Lists.{at_places};
ghost use Rattle.apply_ast.specs.Views.{expr_of};
ghost use Rattle.apply_meaning.specs.Instances.{no_instance, root_of};
ghost use Rattle.apply_meaning.specs.Meaning.{key_list, values};
ghost use Rattle.apply_meaning.specs.Running.{all_of};
ghost use Rattle.row_frames.specs.Frames as spec;
ghost use Rattle.row_frames.specs.Keys.{key_columns, seen_columns};

use crate::keys::{columns_in_turn, lists_in_turn};
use crate::picks::{Picks, picked_root, picked_row, picked_rows};
use crate::tables::{Pick, Table};
use crate::values::values_alone;
use apply_ast::{Expr, Path};
use apply_meaning::{Row, Steps};
use edm_data::{Data, EntityRef};
use edm_values::{Seen, Value};
use std::alloc::{AllocError, Global};
use std::sync::ledger::Ledger;

/// The picks at these places, in the order of the places.
pub(crate) fn picks_at(
    alloc: Global,
    picks: &Picks,
    places: &[usize],
) -> Result<Vec<Pick>, AllocError>
    requires { IsTrue (list_all (λ k. nat_lt k (length picks.now)) places.now) }
    ensures { IfOk result (λ xs. xs.items ≡ at_places picks.now places.now) }
{
    let mut found = Vec::with_capacity(alloc, places.len())?;
    for at in places {
        found.push(picks.at(*at))?;
    }
    Ok(found)
}

/// The picks at these places, each of a table that is there.
fn placed_picks(
    alloc: Global,
    tables: &[Table],
    picks: &Picks,
    places: &[usize],
) -> Result<Vec<Pick>, AllocError>
    requires within { All (λ x. x.table < length tables.now) picks.now }
    requires there { IsTrue (list_all (λ k. nat_lt k (length (spec.all_picked tables.now picks.now))) places.now) }
    ensures picked { IfOk result (λ xs. spec.all_picked tables.now xs.items ≡ at_places (spec.all_picked tables.now picks.now) places.now) }
    ensures within { IfOk result (λ xs. All (λ x. x.table < length tables.now) xs.items) }
{
    let found = picks_at(alloc, picks, places)?;
    Ok(found)
}

/// The values of an expression in the rows at these places.
pub(crate) fn placed_values<'a>(
    alloc: Global,
    store: &'a Data,
    tables: &'a [Table],
    e: &'a Expr,
    picks: &Picks,
    places: &[usize],
) -> Result<Vec<Value>, AllocError>
    requires tables { All spec.IsTable tables.now }
    requires within { All (λ x. x.table < length tables.now) picks.now }
    requires of { IsTrue (all_of store.now (at_places (spec.all_picked tables.now picks.now) places.now)) }
    requires there { IsTrue (list_all (λ k. nat_lt k (length (spec.all_picked tables.now picks.now))) places.now) }
    ensures { IfOk result (λ vs. vs.items ≡ values store.now (expr_of e.now) (at_places (spec.all_picked tables.now picks.now) places.now)) }
{
    let found = placed_picks(alloc, tables, picks, places)?;
    values_alone(alloc, store, tables, e, found.as_slice())
}

/// The values of key paths in the rows at these places, a list for each path.
pub(crate) fn placed_columns<'a>(
    alloc: Global,
    store: &'a Data,
    tables: &'a [Table],
    paths: &'a [Path],
    picks: &Picks,
    places: &[usize],
) -> Result<Vec<Vec<Seen<'a>>>, AllocError>
    requires tables { All spec.IsTable tables.now }
    requires within { All (λ x. x.table < length tables.now) picks.now }
    requires of { IsTrue (all_of store.now (at_places (spec.all_picked tables.now picks.now) places.now)) }
    requires there { IsTrue (list_all (λ k. nat_lt k (length (spec.all_picked tables.now picks.now))) places.now) }
    ensures { IfOk result (λ cs. seen_columns cs.items ≡ key_columns store.now paths.now (at_places (spec.all_picked tables.now picks.now) places.now)) }
{
    let found = placed_picks(alloc, tables, picks, places)?;
    columns_in_turn(alloc, store, tables, paths, found.as_slice())
}

/// The key lists of the rows at these places.
pub(crate) fn placed_keys<'a>(
    alloc: Global,
    store: &'a Data,
    tables: &'a [Table],
    paths: &'a [Path],
    picks: &Picks,
    places: &[usize],
) -> Result<Vec<Vec<Value>>, AllocError>
    requires tables { All spec.IsTable tables.now }
    requires within { All (λ x. x.table < length tables.now) picks.now }
    requires of { IsTrue (all_of store.now (at_places (spec.all_picked tables.now picks.now) places.now)) }
    requires there { IsTrue (list_all (λ k. nat_lt k (length (spec.all_picked tables.now picks.now))) places.now) }
    ensures { IfOk result (λ lists. map (λ k. k.items) lists.items ≡ map (key_list store.now paths.now) (at_places (spec.all_picked tables.now picks.now) places.now)) }
{
    let found = placed_picks(alloc, tables, picks, places)?;
    lists_in_turn(alloc, store, tables, paths, found.as_slice())
}

/// The rows at these places: one step each.
pub(crate) fn placed_rows<L: Ledger>(
    alloc: Global,
    tables: &[Table],
    picks: &Picks,
    places: &[usize],
    steps: &mut Steps<L>,
) -> Result<Vec<Row>, AllocError>
    requires tables { All spec.IsTable tables.now }
    requires within { All (λ x. x.table < length tables.now) picks.now }
    requires there { IsTrue (list_all (λ k. nat_lt k (length (spec.all_picked tables.now picks.now))) places.now) }
    ensures rows { IfOk result (λ made. made.items ≡ at_places (spec.all_picked tables.now picks.now) places.now) }
    ensures steps { steps.new ≤ steps.old + length (at_places (spec.all_picked tables.now picks.now) places.now) }
    ensures grown { steps.old ≤ steps.new }
{
    let found = placed_picks(alloc, tables, picks, places)?;
    picked_rows(alloc, tables, found.as_slice(), steps)
}

/// The row at place k: one step.
pub(crate) fn placed_row<L: Ledger>(
    alloc: Global,
    tables: &[Table],
    picks: &Picks,
    k: usize,
    steps: &mut Steps<L>,
) -> Result<Row, AllocError>
    requires tables { All spec.IsTable tables.now }
    requires within { All (λ x. x.table < length tables.now) picks.now }
    requires there { k < length (spec.all_picked tables.now picks.now) }
    ensures row { IfOk result (λ r. r ≡ get_or (spec.all_picked tables.now picks.now) k no_instance) }
    ensures steps { steps.new ≤ steps.old + 1 }
    ensures grown { steps.old ≤ steps.new }
{
    picked_row(alloc, tables, picks.at(k), steps)
}

/// The entity at the empty prefix of the row at place k.
pub(crate) fn placed_root(tables: &[Table], picks: &Picks, k: usize) -> Option<EntityRef>
    requires tables { All spec.IsTable tables.now }
    requires within { All (λ x. x.table < length tables.now) picks.now }
    requires there { k < length (spec.all_picked tables.now picks.now) }
    ensures { result ≡ root_of (get_or (spec.all_picked tables.now picks.now) k no_instance) }
{
    picked_root(tables, picks.at(k))
}
