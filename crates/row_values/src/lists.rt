//! Lists of instances that are read where they stand: rows, or a frame.
ghost use Rattle.std.specs.Prelude.{◌≡◌, ◌+◌, ◌≤◌, ◌<◌, IfOk, IfSome, IsTrue, false, flat_map, get_or, is_some, length, map, nat_lt};
ghost use Rattle.std.specs.List.{All, list_all, list_any};
ghost use Rattle.edm_values.specs.declared.Method.{Method as Method'};
ghost use Rattle.edm_values.specs.Lists.{at_places, places};
ghost use Rattle.edm_values.specs.Literals.{is_of_kind};
ghost use Rattle.edm_values.specs.Values.{is_beyond, seen_value};
ghost use Rattle.edm_model.specs.LookUps.{IsSet};
ghost use Rattle.apply_ast.specs.Views.{expr_of};
ghost use Rattle.aggregate_ops.specs.Partials.{AreFoldable};
ghost use Rattle.context_typing.specs.Typing.{method_kind};
ghost use Rattle.apply_meaning.specs.Aggregates.{aggregate};
ghost use Rattle.apply_meaning.specs.Instances.{no_instance, root_of};
ghost use Rattle.apply_meaning.specs.Meaning as spec;
ghost use Rattle.apply_meaning.specs.Meaning.{values};
ghost use Rattle.apply_meaning.specs.Running.{all_of};
ghost use Rattle.row_frames.specs.Keys.{key_column, key_columns, seen_columns};
ghost use Rattle.row_frames.specs.Own.{IsOwn};
ghost use Rattle.numbered_groups.specs.Numbered.{AreKeyCodes, places_with};
ghost use Rattle.row_values.specs.GroupFolds.{ArePartialsBy};
ghost use Rattle.value_codes.specs.Codes.{AreCodes};

use crate::aggregates::{frame_aggregate, kind_on, kind_read, row_aggregate};
use crate::distincts::distinct_of;
use crate::group_partials::list_partials;
use crate::key_codes::key_codes;
use crate::keys::{key_list, key_lists};
use crate::numbered::list_aggregates;
use crate::seen::{key_columns_of, seen_of};
use crate::values::{value_on, values_of};
use apply_ast::{Expr, Path};
use apply_meaning::{Row, Steps, lookup};
use edm_data::{Data, EntityRef};
use edm_model::{PropId, SetId};
use edm_values::{EdmType, Method, Seen, Value};
use par_stages::Gate;
use row_frames::Frame;
use seen_partials::SeenPartial;
use std::alloc::{AllocError, Global};
use std::marker::Model;
use std::sync::ledger::Ledger;
use std::thread::Threads;
use value_codes::Codes;

/// Where the instances stand.
#[derive(Clone, Copy, Drop)]
pub(crate) enum Source<'a> {
    Rows(&'a [Row]),
    Frame(&'a Frame),
}

/// A list of instances: rows, or a frame. It is read where it stands: no row is copied or made, but those that are asked for.
#[derive(Drop)]
pub struct RowList<'a> {
    source: Source<'a>,
}

impl<'a> Model for RowList<'a> {
    ghost use Rattle.std.specs.Prelude.{List};
    ghost use Rattle.apply_meaning.specs.Instances.{Instance};
    ghost use Rattle.row_values.specs.Placed.{listed};

    ghost Value = { List Instance };

    ghost view = { λ r. listed r.source };
}

impl<'a> RowList<'a> {
    /// The instances of rows.
    pub fn of_rows(rows: &'a [Row]) -> RowList<'a>
        ensures value { result ≡ rows.now }
    {
        RowList {
            source: Source::Rows(rows),
        }
    }

    /// The instances of a frame.
    pub fn of_frame(frame: &'a Frame) -> RowList<'a>
        ensures value { result ≡ frame.now }
    {
        RowList {
            source: Source::Frame(frame),
        }
    }

    /// The frame, where the list is one.
    pub fn frame(&self) -> Option<&'a Frame>
        ensures value { IfSome result (λ frame. frame.now ≡ self.now) }
    {
        match self.source {
            Source::Rows(_) => None,
            Source::Frame(frame) => Some(frame),
        }
    }

    /// How many instances there are.
    pub fn len(&self) -> usize
        ensures value { result ≡ length self.now }
    {
        match self.source {
            Source::Rows(rows) => rows.len(),
            Source::Frame(frame) => frame.len(),
        }
    }

    /// The entity at the empty prefix of instance k, counted from 0.
    pub fn root(&self, k: usize) -> Option<EntityRef>
        requires there { k < length self.now }
        ensures value { result ≡ root_of (get_or self.now k no_instance) }
    {
        match self.source {
            Source::Rows(rows) => root_at(rows, k),
            Source::Frame(frame) => frame.root(k),
        }
    }

    /// The property that the path is, of the entity of each instance, and the set of these entities: of a frame alone, where all
    /// instances stand at entities of one set, and none has a column of the path, or a prefix that is not the empty one.
    pub fn own_property(&self, store: &Data, path: &Path) -> Option<(SetId, PropId)>
        ensures set { IfSome result (λ o. IsSet store.now.model o.0) }
        ensures value { IfSome result (λ o. All (IsOwn store.now path.now o.0 o.1.at) self.now) }
    {
        match self.source {
            Source::Rows(_) => None,
            Source::Frame(frame) => frame.own_property(store, path),
        }
    }

    /// The values of an expression on the instances. These may be cut into so many parts, each for a thread of its own.
    pub fn values<R: Threads + Sync>(
        &self,
        rt: &R,
        alloc: Global,
        store: &Data,
        e: &Expr,
        workers: u32,
    ) -> Result<Vec<Value>, AllocError>
        requires some { 0 < workers }
        requires of { IsTrue (all_of store.now self.now) }
        ensures value { IfOk result (λ vs. vs.items ≡ values store.now (expr_of e.now) self.now) }
    {
        match self.source {
            Source::Rows(rows) => values_of(rt, alloc, store, e, rows, workers),
            Source::Frame(frame) => frame.values(rt, alloc, store, e, workers),
        }
    }

    /// The aggregate by a method of the values of an expression on the instances, which are of one type. The instances are cut into
    /// pieces, of which the gate is told and which several threads may take.
    pub fn aggregate<R: Threads + Sync, G: Gate>(
        &self,
        rt: &R,
        alloc: Global,
        store: &Data,
        e: &Expr,
        method: Method,
        workers: u32,
        gate: &G,
    ) -> Result<Value, AllocError>
        requires some { 0 < workers }
        requires few { workers ≤ 64 }
        requires of { IsTrue (all_of store.now self.now) }
        requires kind { AreFoldable method (values store.now (expr_of e.now) self.now) }
        ensures value { IfOk result (λ v. v ≡ aggregate method (values store.now (expr_of e.now) self.now)) }
    {
        let found = distinct_of(rt, alloc, store, e, method, self, workers, gate)?;
        if let Some(found) = found {
            return Ok(found);
        }
        match self.source {
            Source::Rows(rows) => row_aggregate(rt, alloc, store, e, method, rows, workers, gate),
            Source::Frame(frame) => {
                frame_aggregate(rt, alloc, store, e, method, frame, workers, gate)
            }
        }
    }

    /// Numbers in place of the values of a path on the instances, where they are known without a hash, as `Frame::codes` has them;
    /// none of rows.
    pub fn codes<R: Threads + Sync>(
        &self,
        rt: &R,
        alloc: Global,
        store: &Data,
        path: &Path,
        workers: u32,
    ) -> Result<Option<Codes>, AllocError>
        requires some { 0 < workers }
        requires of { IsTrue (all_of store.now self.now) }
        ensures value { IfOk result (λ o. IfSome o (AreCodes (key_column store.now self.now path.now))) }
        ensures within { IfOk result (λ o. IfSome o (λ _. list_any is_beyond (key_column store.now self.now path.now) ≡ false)) }
    {
        match self.source {
            Source::Rows(_) => Ok(None),
            Source::Frame(frame) => frame.codes(rt, alloc, store, path, workers),
        }
    }

    /// Numbers in place of the values of each path on the instances, and whether one of these values is past its range. They may be
    /// worked out in so many parts, each by a thread of its own.
    pub fn key_codes<R: Threads + Sync>(
        &self,
        rt: &R,
        alloc: Global,
        store: &Data,
        paths: &[Path],
        workers: u32,
    ) -> Result<(Vec<Codes>, bool), AllocError>
        requires some { 0 < workers }
        requires of { IsTrue (all_of store.now self.now) }
        ensures codes { IfOk result (λ r. AreKeyCodes (map (spec.key_list store.now paths.now) self.now) r.0.items) }
        ensures count { IfOk result (λ r. length r.0.items ≡ length paths.now) }
        ensures beyond { IfOk result (λ r. r.1 ≡ list_any is_beyond (flat_map (key_column store.now self.now) paths.now)) }
    {
        key_codes(rt, alloc, store, self, paths, workers)
    }

    /// For each group of the instances, of whose numbers there are `count`, the aggregate by a method of the values of an expression
    /// on its instances. All values are of one type. The instances are cut into pieces, of which the gate is told and which several
    /// threads may take.
    pub fn aggregates_by<R: Threads + Sync, G: Gate>(
        &self,
        rt: &R,
        alloc: Global,
        store: &Data,
        e: &Expr,
        method: Method,
        numbers: &[u32],
        count: usize,
        workers: u32,
        gate: &G,
    ) -> Result<Vec<Value>, AllocError>
        requires some { 0 < workers }
        requires few { workers ≤ 64 }
        requires of { IsTrue (all_of store.now self.now) }
        requires kind { AreFoldable method (values store.now (expr_of e.now) self.now) }
        requires size { length numbers.now ≡ length self.now }
        requires there { All (λ n. n < count) numbers.now }
        ensures value { IfOk result (λ vs. vs.items ≡ map (λ j. aggregate method (at_places (values store.now (expr_of e.now) self.now) (places_with numbers.now j))) (places count)) }
    {
        list_aggregates(
            rt, alloc, store, e, method, self, numbers, count, workers, gate,
        )
    }

    /// The type of the values of an expression on the instances, where they are of one type: that of the first that has one of its
    /// own, and that of integers where none has.
    pub fn kind(&self, alloc: Global, store: &Data, e: &Expr) -> Result<EdmType, AllocError>
        requires of { IsTrue (all_of store.now self.now) }
        ensures taken { IfOk result (λ kind. (m : Method') → AreFoldable m (values store.now (expr_of e.now) self.now) → IsTrue (is_some (method_kind m kind))) }
        ensures typed { IfOk result (λ kind. (m : Method') → AreFoldable m (values store.now (expr_of e.now) self.now) → IsTrue (list_all (is_of_kind kind) (values store.now (expr_of e.now) self.now))) }
    {
        match self.source {
            Source::Rows(rows) => Ok(kind_on(store, e, rows)),
            Source::Frame(frame) => Ok(kind_read(&frame.reader(alloc, store, e)?)),
        }
    }

    /// For each group of the instances, of whose numbers there are `count`, what a partial keeps of the values of an expression on its
    /// instances. The partials begin as `empty` does, and all of them are of one kind. The instances are cut into pieces, of which the
    /// gate is told and which several threads may take. An instance whose number is none of a group's answers want of memory.
    pub fn partials_by<R: Threads + Sync, P: SeenPartial + Sync, G: Gate>(
        &self,
        rt: &R,
        alloc: Global,
        store: &Data,
        e: &Expr,
        empty: P,
        numbers: &[u32],
        count: usize,
        workers: u32,
        gate: &G,
    ) -> Result<Vec<P>, AllocError>
        requires some { 0 < workers }
        requires few { workers ≤ 64 }
        requires of { IsTrue (all_of store.now self.now) }
        requires kind { All (P.takes (P.kind empty)) (values store.now (expr_of e.now) self.now) }
        requires size { length numbers.now ≡ length self.now }
        ensures value { IfOk result (λ ps. ArePartialsBy P.kind P.stands_for (values store.now (expr_of e.now) self.now) numbers.now count ps.items) }
    {
        list_partials(
            rt, alloc, store, e, self, empty, numbers, count, workers, gate,
        )
    }

    /// The values of an expression on the instances at these places.
    pub fn values_at(
        &self,
        alloc: Global,
        store: &Data,
        e: &Expr,
        places: &[usize],
    ) -> Result<Vec<Value>, AllocError>
        requires of { IsTrue (all_of store.now (at_places self.now places.now)) }
        requires within { IsTrue (list_all (λ k. nat_lt k (length self.now)) places.now) }
        ensures value { IfOk result (λ vs. vs.items ≡ values store.now (expr_of e.now) (at_places self.now places.now)) }
    {
        match self.source {
            Source::Rows(rows) => row_values_at(alloc, store, e, rows, places),
            Source::Frame(frame) => frame.values_at(alloc, store, e, places),
        }
    }

    /// The values of an expression on the instances, which borrow their texts. The instances may be cut into so many parts, each
    /// for a thread of its own.
    pub fn seen_values<'s, R: Threads + Sync>(
        &'s self,
        rt: &R,
        alloc: Global,
        store: &'s Data,
        e: &'s Expr,
        workers: u32,
    ) -> Result<Vec<Seen<'s>>, AllocError>
        requires some { 0 < workers }
        requires of { IsTrue (all_of store.now self.now) }
        ensures value { IfOk result (λ vs. map (λ v. seen_value v) vs.items ≡ values store.now (expr_of e.now) self.now) }
    {
        match self.source {
            Source::Rows(rows) => seen_of(rt, alloc, store, e, rows, workers),
            Source::Frame(frame) => frame.seen_values(rt, alloc, store, e, workers),
        }
    }

    /// The values of the paths on the instances, which borrow their texts: a list for each path. The instances may be cut into so
    /// many parts, each for a thread of its own.
    pub fn key_columns<'s, R: Threads + Sync>(
        &'s self,
        rt: &R,
        alloc: Global,
        store: &'s Data,
        paths: &'s [Path],
        workers: u32,
    ) -> Result<Vec<Vec<Seen<'s>>>, AllocError>
        requires some { 0 < workers }
        requires of { IsTrue (all_of store.now self.now) }
        ensures value { IfOk result (λ cs. seen_columns cs.items ≡ key_columns store.now paths.now self.now) }
    {
        match self.source {
            Source::Rows(rows) => key_columns_of(rt, alloc, store, paths, rows, workers),
            Source::Frame(frame) => frame.key_columns(rt, alloc, store, paths, workers),
        }
    }

    /// The values of the paths on the instances at these places, which borrow their texts: a list for each path.
    pub fn key_columns_at<'s>(
        &'s self,
        alloc: Global,
        store: &'s Data,
        paths: &'s [Path],
        places: &[usize],
    ) -> Result<Vec<Vec<Seen<'s>>>, AllocError>
        requires of { IsTrue (all_of store.now (at_places self.now places.now)) }
        requires within { IsTrue (list_all (λ k. nat_lt k (length self.now)) places.now) }
        ensures value { IfOk result (λ cs. seen_columns cs.items ≡ key_columns store.now paths.now (at_places self.now places.now)) }
    {
        match self.source {
            Source::Rows(rows) => row_columns_at(alloc, store, paths, rows, places),
            Source::Frame(frame) => frame.key_columns_at(alloc, store, paths, places),
        }
    }

    /// The key list of each instance by the paths. The instances may be cut into so many parts, each for a thread of its own.
    pub fn key_lists<R: Threads + Sync>(
        &self,
        rt: &R,
        alloc: Global,
        store: &Data,
        paths: &[Path],
        workers: u32,
    ) -> Result<Vec<Vec<Value>>, AllocError>
        requires some { 0 < workers }
        requires of { IsTrue (all_of store.now self.now) }
        ensures value { IfOk result (λ lists. map (λ k. k.items) lists.items ≡ map (spec.key_list store.now paths.now) self.now) }
    {
        match self.source {
            Source::Rows(rows) => key_lists(rt, alloc, store, paths, rows, workers),
            Source::Frame(frame) => frame.key_lists(rt, alloc, store, paths, workers),
        }
    }

    /// The key lists of the instances at these places.
    pub fn key_lists_at(
        &self,
        alloc: Global,
        store: &Data,
        paths: &[Path],
        places: &[usize],
    ) -> Result<Vec<Vec<Value>>, AllocError>
        requires of { IsTrue (all_of store.now (at_places self.now places.now)) }
        requires within { IsTrue (list_all (λ k. nat_lt k (length self.now)) places.now) }
        ensures value { IfOk result (λ lists. map (λ k. k.items) lists.items ≡ map (spec.key_list store.now paths.now) (at_places self.now places.now)) }
    {
        match self.source {
            Source::Rows(rows) => row_keys_at(alloc, store, paths, rows, places),
            Source::Frame(frame) => frame.key_lists_at(alloc, store, paths, places),
        }
    }

    /// The instances at these places: copies of rows, or rows that are made of a frame, for one step each.
    pub fn members<L: Ledger>(
        &self,
        alloc: Global,
        places: &[usize],
        steps: &mut Steps<L>,
    ) -> Result<Vec<Row>, AllocError>
        requires within { IsTrue (list_all (λ k. nat_lt k (length self.now)) places.now) }
        ensures rows { IfOk result (λ made. made.items ≡ at_places self.now places.now) }
        ensures steps { steps.new ≤ steps.old + length (at_places self.now places.now) }
        ensures grown { steps.old ≤ steps.new }
    {
        match self.source {
            Source::Rows(rows) => copies_at(alloc, rows, places, steps),
            Source::Frame(frame) => frame.rows_at(alloc, places, steps),
        }
    }
}

/// The entity at the empty prefix of row k.
fn root_at(rows: &[Row], k: usize) -> Option<EntityRef>
    requires { k < length rows.now }
    ensures { result ≡ root_of (get_or rows.now k no_instance) }
{
    rows[k].root()
}

/// The values of an expression on the rows at these places.
fn row_values_at(
    alloc: Global,
    store: &Data,
    e: &Expr,
    rows: &[Row],
    places: &[usize],
) -> Result<Vec<Value>, AllocError>
    requires of { IsTrue (all_of store.now (at_places rows.now places.now)) }
    requires within { IsTrue (list_all (λ k. nat_lt k (length rows.now)) places.now) }
    ensures { IfOk result (λ vs. vs.items ≡ values store.now (expr_of e.now) (at_places rows.now places.now)) }
{
    let mut found = Vec::with_capacity(alloc, places.len())?;
    for at in places {
        found.push(value_on(alloc, store, e, &rows[*at])?)?;
    }
    Ok(found)
}

/// The value of a path on the rows at these places.
fn row_column_at<'a>(
    alloc: Global,
    store: &'a Data,
    path: &Path,
    rows: &'a [Row],
    places: &[usize],
) -> Result<Vec<Seen<'a>>, AllocError>
    requires of { IsTrue (all_of store.now (at_places rows.now places.now)) }
    requires within { IsTrue (list_all (λ k. nat_lt k (length rows.now)) places.now) }
    ensures { IfOk result (λ c. map (λ v. seen_value v) c.items ≡ key_column store.now (at_places rows.now places.now) path.now) }
{
    let mut seen = Vec::with_capacity(alloc, places.len())?;
    for at in places {
        seen.push(lookup(store, &rows[*at], path))?;
    }
    Ok(seen)
}

/// The values of the paths on the rows at these places, a list for each path.
fn row_columns_at<'a>(
    alloc: Global,
    store: &'a Data,
    paths: &[Path],
    rows: &'a [Row],
    places: &[usize],
) -> Result<Vec<Vec<Seen<'a>>>, AllocError>
    requires of { IsTrue (all_of store.now (at_places rows.now places.now)) }
    requires within { IsTrue (list_all (λ k. nat_lt k (length rows.now)) places.now) }
    ensures { IfOk result (λ cs. seen_columns cs.items ≡ key_columns store.now paths.now (at_places rows.now places.now)) }
{
    let mut columns = Vec::with_capacity(alloc, paths.len())?;
    for path in paths {
        columns.push(row_column_at(alloc, store, path, rows, places)?)?;
    }
    Ok(columns)
}

/// The key lists of the rows at these places.
fn row_keys_at(
    alloc: Global,
    store: &Data,
    paths: &[Path],
    rows: &[Row],
    places: &[usize],
) -> Result<Vec<Vec<Value>>, AllocError>
    requires of { IsTrue (all_of store.now (at_places rows.now places.now)) }
    requires within { IsTrue (list_all (λ k. nat_lt k (length rows.now)) places.now) }
    ensures { IfOk result (λ lists. map (λ k. k.items) lists.items ≡ map (spec.key_list store.now paths.now) (at_places rows.now places.now)) }
{
    let mut lists = Vec::with_capacity(alloc, places.len())?;
    for at in places {
        lists.push(key_list(alloc, store, paths, &rows[*at])?)?;
    }
    Ok(lists)
}

/// Copies of the rows at these places: one step each.
fn copies_at<L: Ledger>(
    alloc: Global,
    rows: &[Row],
    places: &[usize],
    steps: &mut Steps<L>,
) -> Result<Vec<Row>, AllocError>
    requires { IsTrue (list_all (λ k. nat_lt k (length rows.now)) places.now) }
    ensures rows { IfOk result (λ copies. copies.items ≡ at_places rows.now places.now) }
    ensures steps { steps.new ≤ steps.old + length (at_places rows.now places.now) }
    ensures grown { steps.old ≤ steps.new }
{
    let mut copies = Vec::with_capacity(alloc, places.len())?;
    for at in places {
        copies.push(rows[*at].copy(alloc, steps)?)?;
    }
    Ok(copies)
}
