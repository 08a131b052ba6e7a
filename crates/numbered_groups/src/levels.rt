//! The groups of rows by the codes of columns, and by those of the first of them.
ghost use Rattle.std.specs.Prelude.{◌≡◌, ◌<◌, ◌≤◌, List, [], ◌∷◌, ◌++◌, All, IfOk, OnOk, length};
ghost use Rattle.edm_values.specs.declared.Value.{Value as Value'};
ghost use Rattle.numbered_groups.specs.Numbered.{AreKeyCodes, AreNumbered, AreNumberedLevels};

use crate::groups::NumberedGroups;
use par_stages::Gate;
use std::alloc::{AllocError, Global};
use std::thread::Threads;
use value_codes::Codes;

/// The groups of so many rows by key lists, of whose values these are the numbers, column by column. `workers` says into how many
/// pieces the rows may be cut, each of which tells the gate.
pub fn number_groups<R: Threads + Sync, G: Gate>(
    rt: &R,
    alloc: Global,
    columns: &[Codes],
    rows: usize,
    workers: u32,
    gate: &G,
) -> Result<NumberedGroups, AllocError>
    requires some { 0 < workers }
    requires few { workers ≤ 64 }
    requires long { All (λ c. length c.codes ≡ rows) columns.now }
    ensures value { IfOk result (λ found. (keys : List (List Value')) → length keys ≡ rows → AreKeyCodes keys columns.now → AreNumbered keys found) }
{
    let mut groups = NumberedGroups::whole(alloc, rows)?;
    for at in 0..columns.len() {
        let next = groups.with_column(rt, alloc, &columns[at], workers, gate)?;
        groups = next;
    }
    Ok(groups)
}

/// Puts the level of so many columns behind others, where there are as many as are asked for.
fn keep_level(
    found: &mut Vec<NumberedGroups>,
    level: NumberedGroups,
    at: usize,
    least: usize,
) -> Result<(), AllocError>
    ensures asked { OnOk result (least ≤ at → found.new.items ≡ found.old.items ++ level ∷ []) }
    ensures other { OnOk result (at < least → found.new.items ≡ found.old.items) }
{
    if at < least {
        return Ok(());
    }
    found.push(level)?;
    Ok(())
}

/// The groups of so many rows by the first values of their key lists, for each number of these from all down to `least`, as
/// `number_groups` has them.
pub fn number_levels<R: Threads + Sync, G: Gate>(
    rt: &R,
    alloc: Global,
    columns: &[Codes],
    rows: usize,
    least: usize,
    workers: u32,
    gate: &G,
) -> Result<Vec<NumberedGroups>, AllocError>
    requires some { 0 < workers }
    requires few { workers ≤ 64 }
    requires long { All (λ c. length c.codes ≡ rows) columns.now }
    requires least { least ≤ length columns.now }
    ensures value { IfOk result (λ found. (keys : List (List Value')) → length keys ≡ rows → AreKeyCodes keys columns.now → AreNumberedLevels least (length columns.now) keys found.items) }
{
    let mut found = Vec::new(alloc);
    let mut groups = NumberedGroups::whole(alloc, rows)?;
    for at in 0..columns.len() {
        let next = groups.with_column(rt, alloc, &columns[at], workers, gate)?;
        keep_level(&mut found, groups, at, least)?;
        groups = next;
    }
    found.push(groups)?;
    found.reverse();
    Ok(found)
}
