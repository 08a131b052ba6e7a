//! Tables and picks of frames beside entities of one set: joins.
ghost use Rattle.std.specs.Prelude.{◌≡◌, ◌<◌, ◌∷◌, [], ◌++◌, ℕ, IfOk, None, length, map};
ghost use Rattle.std.specs.Arc.{arc_value};
ghost use Rattle.std.specs.List.{AllZip};
ghost use Rattle.context_typing.specs.Paths.{at_path};
ghost use Rattle.row_frames.specs.Frames as spec;
ghost use Rattle.row_frames.specs.Beside.{IsBeside, all_beside, beside_places, repeated};

use crate::joined::shared_prefix;
use crate::readers::prefix_place;
use crate::tables::{Pick, Prefix, Table};
use apply_ast::Name;
use apply_meaning::path_of;
use edm_model::SetId;
use std::alloc::{AllocError, Global};
use std::sync::Arc;

/// The places so far, and then what a row stands beside.
fn push_places(
    all: Vec<Option<u32>>,
    outer: bool,
    places: &[u32],
) -> Result<Vec<Option<u32>>, AllocError>
    ensures { IfOk result (λ made. made.items ≡ all.items ++ beside_places outer places.now) }
{
    let mut all = all;
    for place in places {
        all.push(Some(*place))?;
    }
    if outer && places.is_empty() {
        all.push(None)?;
    }
    Ok(all)
}

/// The picks so far, and then a pick for each of these.
fn push_pick(all: Vec<Pick>, pick: Pick, times: &[Option<u32>]) -> Result<Vec<Pick>, AllocError>
    ensures { IfOk result (λ made. made.items ≡ all.items ++ map (λ o. pick) times.now) }
{
    let mut all = all;
    for _place in times {
        all.push(pick)?;
    }
    Ok(all)
}

/// Each pick as often as its row stands beside something.
pub(crate) fn repeated_picks(
    alloc: Global,
    outer: bool,
    picks: &[Pick],
    inner: &[Vec<u32>],
) -> Result<Vec<Pick>, AllocError>
    ensures { IfOk result (λ made. made.items ≡ repeated outer picks.now (map (λ l. l.items) inner.now)) }
{
    let mut all = Vec::with_capacity(alloc, picks.len())?;
    for (pick, places) in picks.iter().zip(inner) {
        let times = push_places(Vec::new(alloc), outer, places.as_slice())?;
        all = push_pick(all, *pick, times.as_slice())?;
    }
    Ok(all)
}

/// What all rows stand beside.
fn bound_places(
    alloc: Global,
    outer: bool,
    inner: &[Vec<u32>],
) -> Result<Vec<Option<u32>>, AllocError>
    ensures { IfOk result (λ made. made.items ≡ all_beside outer (map (λ l. l.items) inner.now)) }
{
    let mut all = Vec::with_capacity(alloc, inner.len())?;
    for places in inner {
        all = push_places(all, outer, places.as_slice())?;
    }
    Ok(all)
}

/// The prefix of the alias, with what each row stands beside: entities of the set.
pub(crate) fn alias_prefix(
    alloc: Global,
    outer: bool,
    alias: &Name,
    set: SetId,
    inner: &[Vec<u32>],
) -> Result<Prefix, AllocError>
    ensures path { IfOk result (λ p. p.path ≡ alias.now ∷ []) }
    ensures set { IfOk result (λ p. p.set ≡ set) }
    ensures places { IfOk result (λ p. (arc_value p.places).items ≡ all_beside outer (map (λ l. l.items) inner.now)) }
{
    let places = bound_places(alloc, outer, inner)?;
    Ok(Prefix {
        path: path_of(alloc, alias)?.copy(alloc)?,
        set,
        places: Arc::new(alloc, places)?,
    })
}

/// The table with the prefix behind its own. No list is copied.
fn widened_by(alloc: Global, table: Table, prefix: &Prefix) -> Result<Table, AllocError>
    requires path { 0 < length prefix.now.path }
    requires none { (k : ℕ) → at_path (λ x. x.0) (spec.prefixes_at table k) prefix.now.path ≡ None }
    ensures { IfOk result (IsBeside prefix.now table) }
{
    let Table {
        roots,
        prefixes,
        columns,
    } = table;
    let mut prefixes = prefixes;
    prefixes.push(shared_prefix(alloc, prefix)?)?;
    Ok(Table {
        roots,
        prefixes,
        columns,
    })
}

/// The table with the prefix behind its own, where it has none of this path.
fn beside_table(alloc: Global, table: Table, prefix: &Prefix) -> Result<Table, AllocError>
    ensures { IfOk result (IsBeside prefix.now table) }
{
    match prefix_place(table.prefixes.as_slice(), prefix.path.names()) {
        Some(_) => Ok(table),
        None => widened_by(alloc, table, prefix),
    }
}

/// Each table with the prefix behind its own, where it has none of this path.
pub(crate) fn beside_tables(
    alloc: Global,
    tables: Vec<Table>,
    prefix: &Prefix,
) -> Result<Vec<Table>, AllocError>
    ensures { IfOk result (λ made. AllZip (IsBeside prefix.now) tables.items made.items) }
{
    let mut made = Vec::with_capacity(alloc, tables.len())?;
    for table in tables {
        made.push(beside_table(alloc, table, prefix)?)?;
    }
    Ok(made)
}
