//! What partials keep of the values of an expression on the instances of each group of a list, which have the number of their group.
//! The list is gone over once: each value goes to what is kept of its group.
ghost use Rattle.std.specs.Prelude.{◌≡◌, ◌<◌, ◌≤◌, All, IfOk, IsTrue, length};
ghost use Rattle.apply_ast.specs.Views.{expr_of};
ghost use Rattle.apply_meaning.specs.Meaning.{values};
ghost use Rattle.apply_meaning.specs.Running.{all_of};
ghost use Rattle.row_values.specs.GroupFolds.{ArePartialsBy};

use crate::group_folds::GroupFolds;
use crate::lists::RowList;
use apply_ast::Expr;
use edm_data::Data;
use edm_values::Value;
use par_stages::{Gate, pieces};
use row_frames::FrameReader;
use seen_partials::SeenPartial;
use std::alloc::{AllocError, Global};
use std::thread::Threads;

/// How many rows a thread is worth: starting one takes about as long as folding these.
const FEW: usize = 4096;

/// How many values a partial of a piece is worth: to begin it and to merge it takes about as long as adding these.
const EACH: usize = 4;

/// Into how many pieces so many values of so many groups are cut. Each piece has a partial for each group.
pub(crate) fn piece_workers(rows: usize, count: usize, workers: u32) -> u32
    requires some { 0 < workers }
    ensures some { 0 < result }
    ensures most { result ≤ workers }
{
    if rows < FEW {
        return workers;
    }
    let worth = rows / count.max(1) / EACH;
    u32::try_from(worth).unwrap_or(workers).max(1).min(workers)
}

/// What is kept of values that stand in a list.
pub(crate) fn partials_listed<R: Threads + Sync, P: SeenPartial + Sync, G: Gate>(
    rt: &R,
    alloc: Global,
    values: &[Value],
    empty: P,
    numbers: &[u32],
    count: usize,
    workers: u32,
    gate: &G,
) -> Result<Vec<P>, AllocError>
    requires some { 0 < workers }
    requires few { workers ≤ 64 }
    requires kind { All (P.takes (P.kind empty)) values.now }
    requires size { length numbers.now ≡ length values.now }
    ensures { IfOk result (λ ps. ArePartialsBy P.kind P.stands_for values.now numbers.now count ps.items) }
{
    let workers = piece_workers(values.len(), count, workers);
    let folds = GroupFolds::new(alloc, numbers, count, empty);
    let all = pieces(rt, values, workers, gate, &folds)?;
    Ok(all.into_groups())
}

/// What is kept of values where they are read. A fold of other groups answers want of memory.
pub(crate) fn partials_read<R: Threads + Sync, P: SeenPartial + Sync, G: Gate>(
    rt: &R,
    alloc: Global,
    values: &FrameReader<'_>,
    empty: P,
    numbers: &[u32],
    count: usize,
    workers: u32,
    gate: &G,
) -> Result<Vec<P>, AllocError>
    requires some { 0 < workers }
    requires few { workers ≤ 64 }
    requires kind { All (P.takes (P.kind empty)) values.now }
    requires size { length numbers.now ≡ length values.now }
    ensures { IfOk result (λ ps. ArePartialsBy P.kind P.stands_for values.now numbers.now count ps.items) }
{
    let workers = piece_workers(values.len(), count, workers);
    let folds = GroupFolds::new(alloc, numbers, count, empty);
    let all = values.fold(rt, workers, gate, folds)?;
    if !all.are_by(numbers, count) {
        return Err(AllocError);
    }
    Ok(all.into_groups())
}

/// What is kept of the values of an expression on the instances of each group of a list.
pub(crate) fn list_partials<R: Threads + Sync, P: SeenPartial + Sync, G: Gate>(
    rt: &R,
    alloc: Global,
    store: &Data,
    e: &Expr,
    list: &RowList<'_>,
    empty: P,
    numbers: &[u32],
    count: usize,
    workers: u32,
    gate: &G,
) -> Result<Vec<P>, AllocError>
    requires some { 0 < workers }
    requires few { workers ≤ 64 }
    requires of { IsTrue (all_of store.now list.now) }
    requires kind { All (P.takes (P.kind empty)) (values store.now (expr_of e.now) list.now) }
    requires size { length numbers.now ≡ length list.now }
    ensures { IfOk result (λ ps. ArePartialsBy P.kind P.stands_for (values store.now (expr_of e.now) list.now) numbers.now count ps.items) }
{
    if let Some(frame) = list.frame() {
        let reader = frame.reader(alloc, store, e)?;
        return partials_read(rt, alloc, &reader, empty, numbers, count, workers, gate);
    }
    let all = list.values(rt, alloc, store, e, workers)?;
    let all = all.as_slice();
    partials_listed(rt, alloc, all, empty, numbers, count, workers, gate)
}
