//! Filters: the picks of the rows in which an expression is true.
ghost use Rattle.std.specs.Prelude.{◌≡◌, ◌<◌, ◌∷◌, [], ◌++◌, Err, IsTrue, IfOk, Ok, true, filter, length, map, if◌then◌else◌};
ghost use Rattle.std.specs.List.{All, AllZip};
ghost use Rattle.edm_values.specs.Values.{is_value};
ghost use Rattle.apply_ast.specs.Views.{expr_of};
ghost use Rattle.apply_meaning.specs.Instances.{val};
ghost use Rattle.apply_meaning.specs.Meaning.{values, refused_at_beyond};
ghost use Rattle.apply_meaning.specs.Running.{all_of};
ghost use Rattle.row_frames.specs.Answers.{Keeps};
ghost use Rattle.row_frames.specs.Frames as spec;
ghost use Rattle.row_frames.specs.PartKeeps.{HasPast, KeepsPart, KeepsTrue};
ghost use Rattle.row_frames.specs.Runs.{part_rows, run_rows};
ghost use Rattle.edm_values.specs.declared.refusals.Refused.TheVariants as RunRefused;

use crate::parts::{is_one_part, joined, part_len, parts_of};
use crate::picks::{Part, Picks, Run};
use crate::readers::{TableReader, readers_of};
use crate::seen::{BLOCK, answers_in_turn};
use crate::tables::{Pick, Table};
use apply_ast::Expr;
use apply_meaning::RunRefused;
use edm_data::Data;
use rayon::prelude::*;
use std::alloc::{AllocError, Global};
use std::thread::Threads;

/// The picks, and the next one where it is kept.
fn with_pick(picks: Vec<Pick>, pick: Pick, keep: bool) -> Result<Vec<Pick>, AllocError>
    ensures { IfOk result (λ all. all.items ≡ picks.items ++ (if keep then pick ∷ [] else [])) }
{
    let mut picks = picks;
    if keep {
        picks.push(pick)?;
    }
    Ok(picks)
}

/// The picks whose answers are true.
fn kept_by(alloc: Global, answers: &[Option<bool>], picks: &[Pick]) -> Result<Vec<Pick>, RunRefused>
    requires { length answers.now ≡ length picks.now }
    ensures { Keeps answers.now picks.now result }
{
    let mut kept = Vec::new(alloc);
    for (k, pick) in picks.iter().enumerate() {
        match answers[k] {
            None => return Err(RunRefused::Range),
            Some(keep) => kept = with_pick(kept, *pick, keep)?,
        }
    }
    Ok(kept)
}

/// The picks of the rows of a list in which what is bound is true.
fn kept_in_list(
    alloc: Global,
    readers: &[TableReader<'_>],
    picks: &[Pick],
) -> Result<Vec<Pick>, RunRefused>
    requires { All (spec.IsReadable readers.now) picks.now }
    ensures { KeepsTrue readers.now picks.now result }
{
    let found = answers_in_turn(alloc, readers, picks)?;
    kept_by(alloc, found.as_slice(), picks)
}

/// The picks of the rows of a run in which what is bound is true, block by block.
fn kept_in_run(
    alloc: Global,
    readers: &[TableReader<'_>],
    run: Run,
) -> Result<Vec<Pick>, RunRefused>
    requires { All (spec.IsReadable readers.now) (run_rows run) }
    ensures { KeepsTrue readers.now (run_rows run) result }
{
    let mut kept = Vec::new(alloc);
    let mut rest = run;
    while rest.len() > 0 {
        let front = rest.first(BLOCK);
        let behind = rest.later(BLOCK);
        let block = front.picks(alloc)?;
        let mut more = kept_in_list(alloc, readers, block.as_slice())?;
        kept.append(&mut more)?;
        rest = behind;
    }
    Ok(kept)
}

/// The picks of the rows of a part in which what is bound is true.
fn kept_in_part(
    alloc: Global,
    readers: &[TableReader<'_>],
    part: &Part<'_>,
) -> Result<Vec<Pick>, RunRefused>
    requires { All (spec.IsReadable readers.now) (part_rows part.now) }
    ensures { KeepsPart readers.now part.now result }
{
    match part {
        Part::Run(run) => kept_in_run(alloc, readers, *run),
        Part::List(list) => kept_in_list(alloc, readers, list),
    }
}

/// The picks of the rows in which what is bound is true, in one part.
fn kept_alone(
    alloc: Global,
    readers: &[TableReader<'_>],
    picks: &Picks,
) -> Result<Vec<Pick>, RunRefused>
    requires { All (spec.IsReadable readers.now) picks.now }
    ensures { KeepsTrue readers.now picks.now result }
{
    let part = picks.as_part();
    kept_in_part(alloc, readers, &part)
}

/// The same of each part.
fn kept_in_parts<R: Threads + Sync>(
    rt: &R,
    alloc: Global,
    readers: &[TableReader<'_>],
    parts: &[Part<'_>],
) -> Result<Vec<Result<Vec<Pick>, RunRefused>>, AllocError>
    requires { All (λ p. All (spec.IsReadable readers.now) (part_rows p)) parts.now }
    ensures { IfOk result (λ rs. AllZip (KeepsPart readers.now) parts.now rs.items) }
{
    parts
        .par_iter()
        .with_min_len(1)
        .map(
            |part: &Part<'_>| -> Result<Vec<Pick>, RunRefused>
                requires { All (spec.IsReadable readers.now) (part_rows part.now) }
                ensures { KeepsPart readers.entry.now part.now result }
            { kept_in_part(alloc, readers, part) },
        )
        .collect(rt, alloc)
}

/// The picks of each part, or why those of the first that are not there are not.
fn all_found(
    alloc: Global,
    results: Vec<Result<Vec<Pick>, RunRefused>>,
) -> Result<Vec<Vec<Pick>>, RunRefused>
    ensures ok { IfOk result (λ found. map Ok found.items ≡ results.items) }
    ensures range { result ≡ Err RunRefused.Range → HasPast results.items }
{
    let mut found = Vec::with_capacity(alloc, results.len())?;
    for result in results {
        found.push(result?)?;
    }
    Ok(found)
}

/// The picks of the rows in which what is bound is true. The picks may be cut into so many parts, each for a thread of its own.
fn kept_of<R: Threads + Sync>(
    rt: &R,
    alloc: Global,
    readers: &[TableReader<'_>],
    picks: &Picks,
    workers: u32,
) -> Result<Vec<Pick>, RunRefused>
    requires { All (spec.IsReadable readers.now) picks.now }
    ensures { KeepsTrue readers.now picks.now result }
{
    let n = picks.len();
    if is_one_part(n, workers) {
        return kept_alone(alloc, readers, picks);
    }
    let parts = parts_of(alloc, picks, part_len(n, workers))?;
    let results = kept_in_parts(rt, alloc, readers, parts.as_slice())?;
    let found = all_found(alloc, results)?;
    Ok(joined(alloc, n, found)?)
}

/// The picks of the rows in which the expression is true. The picks may be cut into so many parts, each for a thread of its own.
pub(crate) fn kept_picks<'a, R: Threads + Sync>(
    rt: &R,
    alloc: Global,
    store: &'a Data,
    tables: &'a [Table],
    e: &'a Expr,
    picks: &Picks,
    workers: u32,
) -> Result<Vec<Pick>, RunRefused>
    requires tables { All spec.IsTable tables.now }
    requires within { All (λ x. x.table < length tables.now) picks.now }
    requires of { IsTrue (all_of store.now (spec.all_picked tables.now picks.now)) }
    ensures kept { let l = spec.all_picked tables.now picks.now in spec.GivesPicks tables.now result (refused_at_beyond (values store.now (expr_of e.now) l) (filter (λ i. is_value true (val store.now i (expr_of e.now))) l)) }
    ensures within { IfOk result (λ xs. All (λ x. x.table < length tables.now) xs.items) }
{
    let readers = readers_of(alloc, store, tables, e, picks.len())?;
    kept_of(rt, alloc, readers.as_slice(), picks, workers)
}
