//! Tables: rows that have the same prefixes and columns, kept by columns.
ghost use Rattle.std.specs.Prelude.{◌≡◌, ◌+◌, ◌≤◌, ◌∷◌, [], ℕ, Some, None, IfOk, IfSome, get_or, map};
ghost use Rattle.edm_values.specs.Values.{seen_value};
ghost use Rattle.edm_data.specs.Worlds.{entity_at};
ghost use Rattle.apply_meaning.specs.Instances.{entity_instance, root_of};
ghost use Rattle.apply_meaning.specs.RowViews.{IsRow};
ghost use Rattle.row_frames.specs.Frames as spec;

use apply_ast::Path;
use apply_meaning::{Row, Steps};
use edm_data::EntityRef;
use edm_model::SetId;
use edm_values::{Seen, Value};
use std::alloc::{AllocError, Global};
use std::sync::Arc;
use std::sync::ledger::Ledger;

/// The entities at the empty prefix.
#[derive(Debug, Drop)]
pub(crate) enum Roots {
    /// There are none.
    Without,
    /// A row's number is the place of its entity in the set.
    Whole(SetId),
    /// Each row with the place of its entity in the set. Tables may share the list.
    Listed(SetId, Arc<Vec<u32>>),
}

/// A prefix with what stands there in each row: an entity of one set, of which the list has the place, or none. Tables may share the
/// list.
#[derive(Debug, Drop)]
pub(crate) struct Prefix {
    pub(crate) path: Path,
    pub(crate) set: SetId,
    pub(crate) places: Arc<Vec<Option<u32>>>,
}

/// A column with its value in each row. Tables may share the list.
#[derive(Debug, Drop)]
pub(crate) struct Column {
    pub(crate) path: Path,
    pub(crate) values: Arc<Vec<Value>>,
}

/// Rows of one layout.
#[derive(Debug, Drop)]
pub(crate) struct Table {
    pub(crate) roots: Roots,
    pub(crate) prefixes: Vec<Prefix>,
    pub(crate) columns: Vec<Column>,
}

/// A row of a table: the numbers of both.
#[derive(Clone, Copy, Debug, Drop)]
pub(crate) struct Pick {
    pub(crate) table: u32,
    pub(crate) row: u32,
}

/// The place of a row's entity in a list of these.
pub(crate) fn place_at(places: &[u32], k: u32) -> u32
    ensures { result ≡ get_or places.now k 0 }
{
    match places.get(k as usize) {
        Some(at) => *at,
        None => 0,
    }
}

/// The place of a row's entity in its set.
#[inline(always)]
pub(crate) fn place_in(roots: &Roots, k: u32) -> u32
    ensures { result ≡ spec.place_in roots.now k }
{
    match roots {
        Roots::Without => k,
        Roots::Whole(_) => k,
        Roots::Listed(_, places) => place_at(places.as_slice(), k),
    }
}

/// The entity at the empty prefix of a row.
pub(crate) fn root_at(roots: &Roots, k: u32) -> Option<EntityRef>
    ensures { result ≡ spec.root_at roots.now k }
{
    match roots {
        Roots::Without => None,
        Roots::Whole(set) => Some(EntityRef { set: *set, at: k }),
        Roots::Listed(set, places) => {
            let at = place_at(places.as_slice(), k);
            Some(EntityRef { set: *set, at })
        }
    }
}

/// The set of the entities at the empty prefix.
pub(crate) fn roots_set(roots: &Roots) -> Option<SetId>
    ensures set { (k : ℕ) → IfSome result (λ set. spec.root_at roots.now k ≡ Some (entity_at set (spec.place_in roots.now k))) }
    ensures none { (k : ℕ) → result ≡ None → spec.root_at roots.now k ≡ None }
{
    match roots {
        Roots::Without => None,
        Roots::Whole(set) => Some(*set),
        Roots::Listed(set, _) => Some(*set),
    }
}

/// The entity at the empty prefix of a row of a table.
pub(crate) fn root_in(table: &Table, k: u32) -> Option<EntityRef>
    requires { IsRow (spec.prefixes_at table.now k) (spec.columns_at table.now k) }
    ensures { result ≡ root_of (spec.instance_at table.now k) }
{
    root_at(&table.roots, k)
}

/// The place, in its set, of what stands at a prefix in a row.
#[inline(always)]
pub(crate) fn bound_place(prefix: &Prefix, k: u32) -> Option<u32>
    ensures { result ≡ spec.bound_place k prefix.now }
{
    match prefix.places.get(k as usize) {
        Some(at) => *at,
        None => None,
    }
}

/// What stands at a prefix in a row.
pub(crate) fn bound_at(prefix: &Prefix, k: u32) -> Option<EntityRef>
    ensures { result ≡ (spec.prefix_at k prefix.now).1 }
{
    match bound_place(prefix, k) {
        Some(at) => Some(EntityRef {
            set: prefix.set,
            at,
        }),
        None => None,
    }
}

/// The value of a column in a row.
pub(crate) fn value_at(column: &Column, k: u32) -> Seen<'_>
    ensures { seen_value result ≡ (spec.column_at k column.now).1 }
{
    match column.values.get(k as usize) {
        Some(value) => value.seen(),
        None => Seen::Null,
    }
}

/// The prefixes of a row.
fn prefixes_of(
    alloc: Global,
    prefixes: &[Prefix],
    k: u32,
) -> Result<Vec<(Path, Option<EntityRef>)>, AllocError>
    ensures { IfOk result (λ made. made.items ≡ map (spec.prefix_at k) prefixes.now) }
{
    let mut made = Vec::with_capacity(alloc, prefixes.len())?;
    for prefix in prefixes {
        made.push((prefix.path.copy(alloc)?, bound_at(prefix, k)))?;
    }
    Ok(made)
}

/// The columns of a row.
fn columns_of(alloc: Global, columns: &[Column], k: u32) -> Result<Vec<(Path, Value)>, AllocError>
    ensures { IfOk result (λ made. made.items ≡ map (spec.column_at k) columns.now) }
{
    let mut made = Vec::with_capacity(alloc, columns.len())?;
    for column in columns {
        made.push((column.path.copy(alloc)?, value_at(column, k).own(alloc)?))?;
    }
    Ok(made)
}

/// The row of this number: one step.
pub(crate) fn row_of<L: Ledger>(
    alloc: Global,
    table: &Table,
    k: u32,
    steps: &mut Steps<L>,
) -> Result<Row, AllocError>
    requires { IsRow (spec.prefixes_at table.now k) (spec.columns_at table.now k) }
    ensures row { IfOk result (λ r. r ≡ spec.instance_at table.now k) }
    ensures steps { steps.new ≤ steps.old + 1 }
    ensures grown { steps.old ≤ steps.new }
{
    let prefixes = prefixes_of(alloc, table.prefixes.as_slice(), k)?;
    let columns = columns_of(alloc, table.columns.as_slice(), k)?;
    Row::make(alloc, prefixes, root_at(&table.roots, k), columns, steps)
}

/// A table of all entities of a set. No memory is taken.
pub(crate) fn set_table(alloc: Global, set: SetId) -> Table
    ensures table { spec.IsTable result }
    ensures rows { (k : ℕ) → spec.instance_at result k ≡ entity_instance (entity_at set k) }
{
    Table {
        roots: Roots::Whole(set),
        prefixes: Vec::new(alloc),
        columns: Vec::new(alloc),
    }
}

/// A table alone in a list.
pub(crate) fn one_table(alloc: Global, table: Table) -> Result<Vec<Table>, AllocError>
    ensures { IfOk result (λ tables. tables.items ≡ table ∷ []) }
{
    let mut tables = Vec::new(alloc);
    tables.push(table)?;
    Ok(tables)
}
