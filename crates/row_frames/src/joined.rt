//! Tables and picks of frames that are copied, or that stand one behind the other.
ghost use Rattle.std.specs.Prelude.{◌≡◌, ◌++◌, ℕ, IfOk, map};
ghost use Rattle.std.specs.List.{AllZip};
ghost use Rattle.row_frames.specs.Frames as spec;
ghost use Rattle.row_frames.specs.Joined.{IsShared, shifted as spec_shifted};

use crate::gathered::with_columns;
use crate::tables::{Pick, Prefix, Roots, Table};
use std::alloc::{AllocError, Global};
use std::sync::Arc;

/// The same entities at the empty prefix, with the same list.
fn shared_roots(roots: &Roots) -> Result<Roots, AllocError>
    ensures { (k : ℕ) → IfOk result (λ made. spec.root_at made k ≡ spec.root_at roots.now k) }
{
    match roots {
        Roots::Without => Ok(Roots::Without),
        Roots::Whole(set) => Ok(Roots::Whole(*set)),
        Roots::Listed(set, places) => Ok(Roots::Listed(*set, Arc::try_clone(places)?)),
    }
}

/// The same prefix, with the same list.
pub(crate) fn shared_prefix(alloc: Global, prefix: &Prefix) -> Result<Prefix, AllocError>
    ensures { (k : ℕ) → IfOk result (λ made. spec.prefix_at k made ≡ spec.prefix_at k prefix.now) }
{
    Ok(Prefix {
        path: prefix.path.copy(alloc)?,
        set: prefix.set,
        places: Arc::try_clone(&prefix.places)?,
    })
}

/// The same prefixes, with the same lists.
fn shared_prefixes(alloc: Global, prefixes: &[Prefix]) -> Result<Vec<Prefix>, AllocError>
    ensures { (k : ℕ) → IfOk result (λ made. map (spec.prefix_at k) made.items ≡ map (spec.prefix_at k) prefixes.now) }
{
    let mut made = Vec::with_capacity(alloc, prefixes.len())?;
    for prefix in prefixes {
        made.push(shared_prefix(alloc, prefix)?)?;
    }
    Ok(made)
}

/// A table of the same rows. No list is copied.
fn shared_table(alloc: Global, table: &Table) -> Result<Table, AllocError>
    ensures { IfOk result (IsShared table.now) }
{
    Ok(Table {
        roots: shared_roots(&table.roots)?,
        prefixes: shared_prefixes(alloc, table.prefixes.as_slice())?,
        columns: with_columns(alloc, Vec::new(alloc), table.columns.as_slice())?,
    })
}

/// For each table, one of the same rows. No list is copied.
pub(crate) fn shared_tables(alloc: Global, tables: &[Table]) -> Result<Vec<Table>, AllocError>
    ensures { IfOk result (λ made. AllZip IsShared tables.now made.items) }
{
    let mut made = Vec::with_capacity(alloc, tables.len())?;
    for table in tables {
        made.push(shared_table(alloc, table)?)?;
    }
    Ok(made)
}

/// The tables of both lists.
pub(crate) fn joined_tables(first: Vec<Table>, others: Vec<Table>) -> Result<Vec<Table>, AllocError>
    ensures { IfOk result (λ all. all.items ≡ first.items ++ others.items) }
{
    let mut all = first;
    let mut others = others;
    all.append(&mut others)?;
    Ok(all)
}

/// The pick of a table that stands behind so many others. An error where its number would pass 32 bits.
fn shifted(by: usize, pick: Pick) -> Result<Pick, AllocError>
    ensures { IfOk result (λ x. x ≡ spec_shifted by pick) }
{
    let Ok(by) = u32::try_from(by) else {
        return Err(AllocError);
    };
    match by.checked_add(pick.table) {
        Some(table) => Ok(Pick {
            table,
            row: pick.row,
        }),
        None => Err(AllocError),
    }
}

/// The picks, and then those of tables that stand behind so many others.
pub(crate) fn joined_picks(
    by: usize,
    picks: Vec<Pick>,
    others: &[Pick],
) -> Result<Vec<Pick>, AllocError>
    ensures { IfOk result (λ all. all.items ≡ picks.items ++ map (spec_shifted by) others.now) }
{
    let mut all = picks;
    for other in others {
        all.push(shifted(by, *other)?)?;
    }
    Ok(all)
}
