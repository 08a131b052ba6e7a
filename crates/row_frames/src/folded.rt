//! Values in the rows that are picked, which are folded where they are read.
ghost use Rattle.std.specs.Prelude.{◌≡◌, ◌<◌, ◌≤◌, ◌++◌, ◌∷◌, All, IfOk, IfSome, length, map};
ghost use Rattle.edm_values.specs.declared.Value.{Value as Value'};
ghost use Rattle.par_stages.specs.Placed.{placed};
ghost use Rattle.row_frames.specs.Folded.{IsSlice, dec_of, int_of};
ghost use Rattle.row_frames.specs.Frames as spec;
ghost use Rattle.row_frames.specs.Runs.{run_rows};
ghost use Rattle.row_frames.specs.declared.tables.Pick.{Pick as Pick'};

use crate::picks::{Part, Picks, Run};
use crate::readers::{Bound, Leaf, TableReader, dec_at, int_at, value_of};
use crate::tables::{Pick, Roots};
use edm_values::{Dec, Seen};
use par_stages::{Gate, Partial, pieces};
use seen_partials::SeenPartial;
use std::alloc::{AllocError, Global};
use std::thread::Threads;

/// A partial over the rows that are picked: what one over values keeps of the values that are read there.
#[derive(Drop)]
pub(crate) struct ReadOf<'r, 'a, P> {
    readers: &'r [TableReader<'a>],
    inner: P,
}

impl<'r, 'a, P: SeenPartial> Partial for ReadOf<'r, 'a, P> {
    ghost use Rattle.std.specs.Prelude.{List};
    ghost use Rattle.std.proofs.Common.{◌∙◌};
    ghost use Rattle.std.proofs.lemmas.List.{length-map};
    ghost use Rattle.row_frames.specs.declared.readers.TableReader.{TableReader};
    ghost use Rattle.row_frames.specs.Frames.{all_read, read_at, IsReadable};

    type Item = Pick;

    ghost Kind = { List TableReader × P.Kind };

    ghost kind = { λ s. (s.readers.now, P.kind s.inner) };

    ghost takes = { λ k x. IsReadable k.0 x × P.takes k.1 (read_at k.0 x) };

    ghost count = { λ s. P.count s.inner };

    ghost stands_for = { λ s xs. P.stands_for s.inner (all_read s.readers.now xs) };

    fn fresh(&self) -> Result<ReadOf<'r, 'a, P>, AllocError> {
        Ok(ReadOf {
            readers: self.readers,
            inner: self.inner.fresh()?,
        })
    }

    fn add(&mut self, item: &Pick, place: usize) -> Result<(), AllocError> {
        let readers = self.readers;
        self.inner.add_seen(value_of(readers, *item), place)
    }

    fn merge(&mut self, later: ReadOf<'r, 'a, P>) -> Result<(), AllocError> {
        self.inner.merge(later.inner)
    }

    ghost counted = { λ p xs h. P.counted p.inner (all_read p.readers.now xs) h ∙ length-map xs (λ x. (read_at p.readers.now x.0, x.1)) };
}

/// A partial over rows of one table: what one over values keeps of integers, of which each row has the one at its place.
#[derive(Drop)]
struct IntsOf<'r, P> {
    list: &'r [i64],
    inner: P,
}

impl<'r, P: SeenPartial> Partial for IntsOf<'r, P> {
    ghost use Rattle.std.specs.Prelude.{List, ℤ, map};
    ghost use Rattle.std.proofs.Common.{◌∙◌};
    ghost use Rattle.std.proofs.lemmas.List.{length-map};
    ghost use Rattle.row_frames.specs.Folded.{ints_read, int_of};

    type Item = Pick;

    ghost Kind = { List ℤ × P.Kind };

    ghost kind = { λ s. (s.list.now, P.kind s.inner) };

    ghost takes = { λ k x. P.takes k.1 (int_of k.0 x) };

    ghost count = { λ s. P.count s.inner };

    ghost stands_for = { λ s xs. P.stands_for s.inner (ints_read s.list.now xs) };

    fn fresh(&self) -> Result<IntsOf<'r, P>, AllocError> {
        Ok(IntsOf {
            list: self.list,
            inner: self.inner.fresh()?,
        })
    }

    fn add(&mut self, item: &Pick, place: usize) -> Result<(), AllocError> {
        self.inner.add_seen(int_at(self.list, item.row), place)
    }

    fn merge(&mut self, later: IntsOf<'r, P>) -> Result<(), AllocError> {
        self.inner.merge(later.inner)
    }

    ghost counted = { λ p xs h. P.counted p.inner (ints_read p.list.now xs) h ∙ length-map xs (λ x. (int_of p.list.now x.0, x.1)) };
}

/// The same of decimals.
#[derive(Drop)]
struct DecsOf<'r, P> {
    list: &'r [Dec],
    inner: P,
}

impl<'r, P: SeenPartial> Partial for DecsOf<'r, P> {
    ghost use Rattle.std.specs.Prelude.{List, map};
    ghost use Rattle.std.proofs.Common.{◌∙◌};
    ghost use Rattle.std.proofs.lemmas.List.{length-map};
    ghost use Rattle.edm_values.specs.declared.Dec.{Dec as Dec'};
    ghost use Rattle.row_frames.specs.Folded.{decs_read, dec_of};

    type Item = Pick;

    ghost Kind = { List Dec' × P.Kind };

    ghost kind = { λ s. (s.list.now, P.kind s.inner) };

    ghost takes = { λ k x. P.takes k.1 (dec_of k.0 x) };

    ghost count = { λ s. P.count s.inner };

    ghost stands_for = { λ s xs. P.stands_for s.inner (decs_read s.list.now xs) };

    fn fresh(&self) -> Result<DecsOf<'r, P>, AllocError> {
        Ok(DecsOf {
            list: self.list,
            inner: self.inner.fresh()?,
        })
    }

    fn add(&mut self, item: &Pick, place: usize) -> Result<(), AllocError> {
        self.inner.add_seen(dec_at(self.list, item.row), place)
    }

    fn merge(&mut self, later: DecsOf<'r, P>) -> Result<(), AllocError> {
        self.inner.merge(later.inner)
    }

    ghost counted = { λ p xs h. P.counted p.inner (decs_read p.list.now xs) h ∙ length-map xs (λ x. (dec_of p.list.now x.0, x.1)) };
}

/// A partial over integers: what one over values keeps of them.
#[derive(Drop)]
struct OwnInts<P> {
    inner: P,
}

impl<P: SeenPartial> Partial for OwnInts<P> {
    ghost use Rattle.std.specs.Prelude.{map};
    ghost use Rattle.std.proofs.Common.{◌∙◌};
    ghost use Rattle.std.proofs.lemmas.List.{length-map};
    ghost use Rattle.edm_values.specs.declared.Value.{Value as Value'};
    ghost use Rattle.row_frames.specs.Folded.{own_ints};

    type Item = i64;

    ghost Kind = { P.Kind };

    ghost kind = { λ s. P.kind s.inner };

    ghost takes = { λ k x. P.takes k (Value'.Int x) };

    ghost count = { λ s. P.count s.inner };

    ghost stands_for = { λ s xs. P.stands_for s.inner (own_ints xs) };

    fn fresh(&self) -> Result<OwnInts<P>, AllocError> {
        Ok(OwnInts {
            inner: self.inner.fresh()?,
        })
    }

    fn add(&mut self, item: &i64, place: usize) -> Result<(), AllocError> {
        self.inner.add_seen(Seen::Int(*item), place)
    }

    fn merge(&mut self, later: OwnInts<P>) -> Result<(), AllocError> {
        self.inner.merge(later.inner)
    }

    ghost counted = { λ p xs h. P.counted p.inner (own_ints xs) h ∙ length-map xs (λ x. (Value'.Int x.0, x.1)) };
}

/// The same of decimals.
#[derive(Drop)]
struct OwnDecs<P> {
    inner: P,
}

impl<P: SeenPartial> Partial for OwnDecs<P> {
    ghost use Rattle.std.specs.Prelude.{map};
    ghost use Rattle.std.proofs.Common.{◌∙◌};
    ghost use Rattle.std.proofs.lemmas.List.{length-map};
    ghost use Rattle.edm_values.specs.declared.Value.{Value as Value'};
    ghost use Rattle.row_frames.specs.Folded.{own_decs};

    type Item = Dec;

    ghost Kind = { P.Kind };

    ghost kind = { λ s. P.kind s.inner };

    ghost takes = { λ k x. P.takes k (Value'.Dec x) };

    ghost count = { λ s. P.count s.inner };

    ghost stands_for = { λ s xs. P.stands_for s.inner (own_decs xs) };

    fn fresh(&self) -> Result<OwnDecs<P>, AllocError> {
        Ok(OwnDecs {
            inner: self.inner.fresh()?,
        })
    }

    fn add(&mut self, item: &Dec, place: usize) -> Result<(), AllocError> {
        self.inner.add_seen(Seen::Dec(*item), place)
    }

    fn merge(&mut self, later: OwnDecs<P>) -> Result<(), AllocError> {
        self.inner.merge(later.inner)
    }

    ghost counted = { λ p xs h. P.counted p.inner (own_decs xs) h ∙ length-map xs (λ x. (Value'.Dec x.0, x.1)) };
}

/// The integers of which each row of the only table has the one at its place.
pub(crate) fn row_ints<'a>(readers: &[TableReader<'a>]) -> Option<&'a [i64]>
    ensures { IfSome result (λ list. (x : Pick') → x.table < length readers.now → spec.read_at readers.now x ≡ int_of list.now x) }
{
    let [reader] = readers else {
        return None;
    };
    let Roots::Whole(_) = &reader.table.roots else {
        return None;
    };
    match &reader.bound {
        Bound::Leaf(Leaf::Ints(list)) => Some(list),
        _ => None,
    }
}

/// The decimals of which each row of the only table has the one at its place.
pub(crate) fn row_decs<'a>(readers: &[TableReader<'a>]) -> Option<&'a [Dec]>
    ensures { IfSome result (λ list. (x : Pick') → x.table < length readers.now → spec.read_at readers.now x ≡ dec_of list.now x) }
{
    let [reader] = readers else {
        return None;
    };
    let Roots::Whole(_) = &reader.table.roots else {
        return None;
    };
    match &reader.bound {
        Bound::Leaf(Leaf::Decs(list)) => Some(list),
        _ => None,
    }
}

/// What a partial over values keeps of those in the rows that are picked, each of which is read by its table's reader.
fn fold_each<R: Threads + Sync, P: SeenPartial + Sync, G: Gate>(
    rt: &R,
    readers: &[TableReader<'_>],
    picks: &[Pick],
    workers: u32,
    gate: &G,
    empty: P,
) -> Result<P, AllocError>
    requires some { 0 < workers }
    requires few { workers ≤ 64 }
    requires readable { All (spec.IsReadable readers.now) picks.now }
    requires kind { All (P.takes (P.kind empty)) (map (spec.read_at readers.now) picks.now) }
    ensures { IfOk result (λ p. P.stands_for p (placed 0 (map (spec.read_at readers.now) picks.now))) }
{
    let empty = ReadOf {
        readers,
        inner: empty,
    };
    let ReadOf { inner, .. } = pieces(rt, picks, workers, gate, &empty)?;
    Ok(inner)
}

/// What a partial over values keeps of the integers at the rows that are picked.
fn fold_ints<R: Threads + Sync, P: SeenPartial + Sync, G: Gate>(
    rt: &R,
    list: &[i64],
    picks: &[Pick],
    workers: u32,
    gate: &G,
    empty: P,
) -> Result<P, AllocError>
    requires some { 0 < workers }
    requires few { workers ≤ 64 }
    requires kind { All (P.takes (P.kind empty)) (map (int_of list.now) picks.now) }
    ensures { IfOk result (λ p. P.stands_for p (placed 0 (map (int_of list.now) picks.now))) }
{
    let empty = IntsOf { list, inner: empty };
    let IntsOf { inner, .. } = pieces(rt, picks, workers, gate, &empty)?;
    Ok(inner)
}

/// What a partial over values keeps of the decimals at the rows that are picked.
fn fold_decs<R: Threads + Sync, P: SeenPartial + Sync, G: Gate>(
    rt: &R,
    list: &[Dec],
    picks: &[Pick],
    workers: u32,
    gate: &G,
    empty: P,
) -> Result<P, AllocError>
    requires some { 0 < workers }
    requires few { workers ≤ 64 }
    requires kind { All (P.takes (P.kind empty)) (map (dec_of list.now) picks.now) }
    ensures { IfOk result (λ p. P.stands_for p (placed 0 (map (dec_of list.now) picks.now))) }
{
    let empty = DecsOf { list, inner: empty };
    let DecsOf { inner, .. } = pieces(rt, picks, workers, gate, &empty)?;
    Ok(inner)
}

/// What a partial over values keeps of integers.
fn fold_own_ints<R: Threads + Sync, P: SeenPartial + Sync, G: Gate>(
    rt: &R,
    list: &[i64],
    workers: u32,
    gate: &G,
    empty: P,
) -> Result<P, AllocError>
    requires some { 0 < workers }
    requires few { workers ≤ 64 }
    requires kind { All (P.takes (P.kind empty)) (map Value'.Int list.now) }
    ensures { IfOk result (λ p. P.stands_for p (placed 0 (map Value'.Int list.now))) }
{
    let empty = OwnInts { inner: empty };
    let OwnInts { inner } = pieces(rt, list, workers, gate, &empty)?;
    Ok(inner)
}

/// What a partial over values keeps of decimals.
fn fold_own_decs<R: Threads + Sync, P: SeenPartial + Sync, G: Gate>(
    rt: &R,
    list: &[Dec],
    workers: u32,
    gate: &G,
    empty: P,
) -> Result<P, AllocError>
    requires some { 0 < workers }
    requires few { workers ≤ 64 }
    requires kind { All (P.takes (P.kind empty)) (map Value'.Dec list.now) }
    ensures { IfOk result (λ p. P.stands_for p (placed 0 (map Value'.Dec list.now))) }
{
    let empty = OwnDecs { inner: empty };
    let OwnDecs { inner } = pieces(rt, list, workers, gate, &empty)?;
    Ok(inner)
}

/// The elements at the places of a run, where these are all there.
fn slice_of<T>(list: &[T], run: Run) -> Option<&[T]>
    ensures { IfSome result (λ part. IsSlice list.now run.from run.to part.now) }
{
    let from = run.from as usize;
    let to = run.to as usize;
    if to < from {
        return None;
    }
    if list.len() < to {
        return None;
    }
    Some(&list[from..to])
}

/// The integers that the rows of a run have, where each of them has the one at its place.
fn run_ints<'a>(readers: &[TableReader<'a>], run: Run) -> Option<&'a [i64]>
    requires { All (spec.IsReadable readers.now) (run_rows run) }
    ensures { IfSome result (λ list. map Value'.Int list.now ≡ map (spec.read_at readers.now) (run_rows run)) }
{
    let Some(list) = row_ints(readers) else {
        return None;
    };
    slice_of(list, run)
}

/// The decimals that the rows of a run have, where each of them has the one at its place.
fn run_decs<'a>(readers: &[TableReader<'a>], run: Run) -> Option<&'a [Dec]>
    requires { All (spec.IsReadable readers.now) (run_rows run) }
    ensures { IfSome result (λ list. map Value'.Dec list.now ≡ map (spec.read_at readers.now) (run_rows run)) }
{
    let Some(list) = row_decs(readers) else {
        return None;
    };
    slice_of(list, run)
}

/// What a partial over values keeps of those in the rows of a list.
fn fold_list<R: Threads + Sync, P: SeenPartial + Sync, G: Gate>(
    rt: &R,
    readers: &[TableReader<'_>],
    picks: &[Pick],
    workers: u32,
    gate: &G,
    empty: P,
) -> Result<P, AllocError>
    requires some { 0 < workers }
    requires few { workers ≤ 64 }
    requires readable { All (spec.IsReadable readers.now) picks.now }
    requires kind { All (P.takes (P.kind empty)) (map (spec.read_at readers.now) picks.now) }
    ensures { IfOk result (λ p. P.stands_for p (placed 0 (map (spec.read_at readers.now) picks.now))) }
{
    if let Some(list) = row_ints(readers) {
        return fold_ints(rt, list, picks, workers, gate, empty);
    }
    if let Some(list) = row_decs(readers) {
        return fold_decs(rt, list, picks, workers, gate, empty);
    }
    fold_each(rt, readers, picks, workers, gate, empty)
}

/// What a partial over values keeps of those in the rows of a run.
fn fold_run<R: Threads + Sync, P: SeenPartial + Sync, G: Gate>(
    rt: &R,
    alloc: Global,
    readers: &[TableReader<'_>],
    run: Run,
    workers: u32,
    gate: &G,
    empty: P,
) -> Result<P, AllocError>
    requires some { 0 < workers }
    requires few { workers ≤ 64 }
    requires readable { All (spec.IsReadable readers.now) (run_rows run) }
    requires kind { All (P.takes (P.kind empty)) (map (spec.read_at readers.now) (run_rows run)) }
    ensures { IfOk result (λ p. P.stands_for p (placed 0 (map (spec.read_at readers.now) (run_rows run)))) }
{
    if let Some(list) = run_ints(readers, run) {
        return fold_own_ints(rt, list, workers, gate, empty);
    }
    if let Some(list) = run_decs(readers, run) {
        return fold_own_decs(rt, list, workers, gate, empty);
    }
    let picks = run.picks(alloc)?;
    fold_each(rt, readers, picks.as_slice(), workers, gate, empty)
}

/// What a partial over values keeps of those in the rows that are picked. These are cut into pieces, each of which is read and folded
/// by a thread of its own where there are several workers.
pub(crate) fn fold_read<R: Threads + Sync, P: SeenPartial + Sync, G: Gate>(
    rt: &R,
    alloc: Global,
    readers: &[TableReader<'_>],
    picks: &Picks,
    workers: u32,
    gate: &G,
    empty: P,
) -> Result<P, AllocError>
    requires some { 0 < workers }
    requires few { workers ≤ 64 }
    requires readable { All (spec.IsReadable readers.now) picks.now }
    requires kind { All (P.takes (P.kind empty)) (map (spec.read_at readers.now) picks.now) }
    ensures { IfOk result (λ p. P.stands_for p (placed 0 (map (spec.read_at readers.now) picks.now))) }
{
    match picks.as_part() {
        Part::Run(run) => fold_run(rt, alloc, readers, run, workers, gate, empty),
        Part::List(list) => fold_list(rt, readers, list, workers, gate, empty),
    }
}
