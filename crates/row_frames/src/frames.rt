//! Frames: lists of instances that are kept by columns.
ghost use Rattle.std.specs.Prelude.{◌≡◌, ◌+◌, ◌≤◌, ◌<◌, ◌==◌, ◌++◌, [], ℕ, List, IsTrue, IfOk, IfSome, Some, false, true, filter, get_or, length, map, nat_lt, option_map, take, drop};
ghost use Rattle.std.specs.List.{All, list_all, list_any};
ghost use Rattle.edm_values.specs.Lists.{at_places, is_some_and, places};
ghost use Rattle.edm_values.specs.Values.{is_beyond, is_value, seen_value};
ghost use Rattle.edm_model.specs.LookUps.{IsNavigation, IsSet, navigation_on};
ghost use Rattle.edm_model.specs.Models.{Navigation};
ghost use Rattle.edm_data.specs.References.{entity_type};
ghost use Rattle.context_typing.specs.Paths.{is_none_or};
ghost use Rattle.apply_ast.specs.Views.{expr_of, named_of};
ghost use Rattle.apply_meaning.specs.Instances as meaning;
ghost use Rattle.apply_meaning.specs.Instances.{entity_instance, extended, no_instance, root_of, val};
ghost use Rattle.apply_meaning.specs.Meaning.{key_list, values, refused_at_beyond};
ghost use Rattle.apply_meaning.specs.RowViews.{columns_differ};
ghost use Rattle.apply_meaning.specs.Running.{all_free, all_of, new_columns as columns_of};
ghost use Rattle.join_concat.specs.Joins.{bound_rows, is_free_of};
ghost use Rattle.row_frames.specs.Columned.{given, row_across, widened};
ghost use Rattle.row_frames.specs.Frames as spec;
ghost use Rattle.row_frames.specs.Keys.{key_column, key_columns, seen_columns};
ghost use Rattle.row_frames.specs.Own.{IsOwn};
ghost use Rattle.row_frames.specs.Related.{placed, related_to};
ghost use Rattle.value_codes.specs.Codes.{AreCodes};

use crate::codes::codes_of;
use crate::columned::{columned_tables, given_columns, row_picks};
use crate::computed::{computed_tables, new_columns, rows_in_order};
use crate::frame_readers::{FrameReader, reader_over};
use crate::joined::{joined_picks, joined_tables, shared_tables};
use crate::joins::{alias_prefix, beside_tables, repeated_picks};
use crate::kept::kept_picks;
use crate::keys::{key_columns_of, key_lists_of};
use crate::own::property_of;
use crate::picks::{Picks, picked_rows, place_picks};
use crate::placed::{
    picks_at, placed_columns, placed_keys, placed_root, placed_row, placed_rows, placed_values,
};
use crate::related::{are_of_set, picked_places, related_picks};
use crate::root_places::{RootPlaces, root_places_of};
use crate::shown::{FrameRows, shown_rows};
use crate::tables::{Table, one_table, set_table};
use crate::values::{seen_of, values_of};
use apply_ast::{Expr, Name, Named, Path};
use apply_meaning::{Row, RunRefused, Steps};
use edm_data::{Data, EntityRef};
use edm_model::{NavId, PropId, SetId};
use edm_values::{Seen, Value};
use std::alloc::{AllocError, Global};
use std::marker::Model;
use std::sync::ledger::Ledger;
use std::thread::Threads;
use value_codes::Codes;

/// A list of instances: tables, and the rows of these that are picked, in their order.
#[derive(Debug, Drop)]
pub struct Frame {
    tables: Vec<Table>,
    picks: Picks,
}

impl Model for Frame {
    ghost use Rattle.std.specs.Prelude.{List, ◌<◌, length};
    ghost use Rattle.std.specs.List.{All};
    ghost use Rattle.apply_meaning.specs.Instances.{Instance};
    ghost use Rattle.row_frames.specs.Frames.{IsTable, all_picked};

    ghost Value = { List Instance };

    ghost view = { λ f. all_picked f.tables.items f.picks };

    ghost invariant = { λ f. All IsTable f.tables.items × All (λ x. x.table < length f.tables.items) f.picks };
}

impl Frame {
    /// The instances of a set's entities in data order. No row is made.
    pub fn of_set(alloc: Global, store: &Data, set: SetId) -> Result<Frame, AllocError>
        ensures value { IfOk result (λ f. f ≡ meaning.rows store.now set) }
    {
        let tables = one_table(alloc, set_table(alloc, set))?;
        let picks = Picks::of_first(store.count(set));
        Ok(Frame { tables, picks })
    }

    /// The instances of the first `n` entities of a set, in data order. No row is made.
    pub fn of_first(alloc: Global, set: SetId, n: u32) -> Result<Frame, AllocError>
        ensures value { IfOk result (λ f. f ≡ map (placed set) (places n)) }
    {
        let tables = one_table(alloc, set_table(alloc, set))?;
        let picks = Picks::of_first(n);
        Ok(Frame { tables, picks })
    }

    /// The instances of the entities of a set at these places, in the order of the places. No row is made.
    pub fn of_entities(alloc: Global, set: SetId, at: &[u32]) -> Result<Frame, AllocError>
        ensures value { IfOk result (λ f. f ≡ map (placed set) at.now) }
    {
        let tables = one_table(alloc, set_table(alloc, set))?;
        let list = place_picks(alloc, at)?;
        let picks = Picks::of_list(list);
        Ok(Frame { tables, picks })
    }

    /// The instances as rows: one step each.
    pub fn into_rows<L: Ledger>(
        self,
        alloc: Global,
        steps: &mut Steps<L>,
    ) -> Result<Vec<Row>, AllocError>
        ensures rows { IfOk result (λ made. made.items ≡ self) }
        ensures steps { steps.new ≤ steps.old + length self }
        ensures grown { steps.old ≤ steps.new }
    {
        let Frame { tables, picks } = self;
        let list = picks.into_list(alloc)?;
        picked_rows(alloc, tables.as_slice(), list.as_slice(), steps)
    }

    /// The values of an expression on the instances. These may be cut into so many parts, each for a thread of its own.
    pub fn values<R: Threads + Sync>(
        &self,
        rt: &R,
        alloc: Global,
        store: &Data,
        e: &Expr,
        workers: u32,
    ) -> Result<Vec<Value>, AllocError>
        requires some { 0 < workers }
        requires of { IsTrue (all_of store.now self.now) }
        ensures value { IfOk result (λ vs. vs.items ≡ values store.now (expr_of e.now) self.now) }
    {
        let tables = self.tables.as_slice();
        values_of(rt, alloc, store, tables, e, &self.picks, workers)
    }

    /// The values of an expression on the instances, which borrow their texts. The instances may be cut into so many parts, each
    /// for a thread of its own.
    pub fn seen_values<'s, R: Threads + Sync>(
        &'s self,
        rt: &R,
        alloc: Global,
        store: &'s Data,
        e: &'s Expr,
        workers: u32,
    ) -> Result<Vec<Seen<'s>>, AllocError>
        requires some { 0 < workers }
        requires of { IsTrue (all_of store.now self.now) }
        ensures value { IfOk result (λ vs. map (λ v. seen_value v) vs.items ≡ values store.now (expr_of e.now) self.now) }
    {
        let tables = self.tables.as_slice();
        seen_of(rt, alloc, store, tables, e, &self.picks, workers)
    }

    /// The values of an expression on the instances, of which none is read yet.
    pub fn reader<'s>(
        &'s self,
        alloc: Global,
        store: &'s Data,
        e: &'s Expr,
    ) -> Result<FrameReader<'s>, AllocError>
        requires of { IsTrue (all_of store.now self.now) }
        ensures value { IfOk result (λ r. r ≡ values store.now (expr_of e.now) self.now) }
    {
        reader_over(alloc, store, self.tables.as_slice(), e, &self.picks)
    }

    /// The values of an expression on the instances at these places.
    pub fn values_at(
        &self,
        alloc: Global,
        store: &Data,
        e: &Expr,
        places: &[usize],
    ) -> Result<Vec<Value>, AllocError>
        requires of { IsTrue (all_of store.now (at_places self.now places.now)) }
        requires within { IsTrue (list_all (λ k. nat_lt k (length self.now)) places.now) }
        ensures value { IfOk result (λ vs. vs.items ≡ values store.now (expr_of e.now) (at_places self.now places.now)) }
    {
        let tables = self.tables.as_slice();
        placed_values(alloc, store, tables, e, &self.picks, places)
    }

    /// The values of the paths on the instances, which borrow their texts: a list for each path. The instances may be cut into so
    /// many parts, each for a thread of its own.
    pub fn key_columns<'s, R: Threads + Sync>(
        &'s self,
        rt: &R,
        alloc: Global,
        store: &'s Data,
        paths: &'s [Path],
        workers: u32,
    ) -> Result<Vec<Vec<Seen<'s>>>, AllocError>
        requires some { 0 < workers }
        requires of { IsTrue (all_of store.now self.now) }
        ensures value { IfOk result (λ cs. seen_columns cs.items ≡ key_columns store.now paths.now self.now) }
    {
        let tables = self.tables.as_slice();
        let picks = &self.picks;
        key_columns_of(rt, alloc, store, tables, paths, picks, workers)
    }

    /// The values of the paths on the instances at these places, which borrow their texts: a list for each path.
    pub fn key_columns_at<'s>(
        &'s self,
        alloc: Global,
        store: &'s Data,
        paths: &'s [Path],
        places: &[usize],
    ) -> Result<Vec<Vec<Seen<'s>>>, AllocError>
        requires of { IsTrue (all_of store.now (at_places self.now places.now)) }
        requires within { IsTrue (list_all (λ k. nat_lt k (length self.now)) places.now) }
        ensures value { IfOk result (λ cs. seen_columns cs.items ≡ key_columns store.now paths.now (at_places self.now places.now)) }
    {
        let tables = self.tables.as_slice();
        placed_columns(alloc, store, tables, paths, &self.picks, places)
    }

    /// The key list of each instance by the paths. The instances may be cut into so many parts, each for a thread of its own.
    pub fn key_lists<R: Threads + Sync>(
        &self,
        rt: &R,
        alloc: Global,
        store: &Data,
        paths: &[Path],
        workers: u32,
    ) -> Result<Vec<Vec<Value>>, AllocError>
        requires some { 0 < workers }
        requires of { IsTrue (all_of store.now self.now) }
        ensures value { IfOk result (λ lists. map (λ k. k.items) lists.items ≡ map (key_list store.now paths.now) self.now) }
    {
        let tables = self.tables.as_slice();
        let picks = &self.picks;
        key_lists_of(rt, alloc, store, tables, paths, picks, workers)
    }

    /// The key lists of the instances at these places.
    pub fn key_lists_at(
        &self,
        alloc: Global,
        store: &Data,
        paths: &[Path],
        places: &[usize],
    ) -> Result<Vec<Vec<Value>>, AllocError>
        requires of { IsTrue (all_of store.now (at_places self.now places.now)) }
        requires within { IsTrue (list_all (λ k. nat_lt k (length self.now)) places.now) }
        ensures value { IfOk result (λ lists. map (λ k. k.items) lists.items ≡ map (key_list store.now paths.now) (at_places self.now places.now)) }
    {
        let tables = self.tables.as_slice();
        placed_keys(alloc, store, tables, paths, &self.picks, places)
    }

    /// The instances at these places as rows: one step each.
    pub fn rows_at<L: Ledger>(
        &self,
        alloc: Global,
        places: &[usize],
        steps: &mut Steps<L>,
    ) -> Result<Vec<Row>, AllocError>
        requires within { IsTrue (list_all (λ k. nat_lt k (length self.now)) places.now) }
        ensures rows { IfOk result (λ made. made.items ≡ at_places self.now places.now) }
        ensures steps { steps.new ≤ steps.old + length (at_places self.now places.now) }
        ensures grown { steps.old ≤ steps.new }
    {
        let tables = self.tables.as_slice();
        placed_rows(alloc, tables, &self.picks, places, steps)
    }

    /// Instance k as a row, counted from 0: one step.
    pub fn row<L: Ledger>(
        &self,
        alloc: Global,
        k: usize,
        steps: &mut Steps<L>,
    ) -> Result<Row, AllocError>
        requires there { k < length self.now }
        ensures row { IfOk result (λ r. r ≡ get_or self.now k no_instance) }
        ensures steps { steps.new ≤ steps.old + 1 }
        ensures grown { steps.old ≤ steps.new }
    {
        let tables = self.tables.as_slice();
        placed_row(alloc, tables, &self.picks, k, steps)
    }

    /// The instances, each of which is read where it stands. No row is made.
    pub fn shown(&self) -> FrameRows<'_>
        ensures value { result ≡ self.now }
    {
        shown_rows(self.tables.as_slice(), self.picks.as_part())
    }

    /// The entity at the empty prefix of instance k, counted from 0.
    pub fn root(&self, k: usize) -> Option<EntityRef>
        requires there { k < length self.now }
        ensures value { result ≡ root_of (get_or self.now k no_instance) }
    {
        placed_root(self.tables.as_slice(), &self.picks, k)
    }

    /// The places, in their set, of the entities at the empty prefix of the instances, of which none is kept: where all instances are of
    /// one table and stand at entities.
    pub fn root_places(&self) -> Option<RootPlaces<'_>>
        ensures value { IfSome result (λ r. map (λ i. option_map (λ e. e.at) (root_of i)) self.now ≡ map (λ k. Some k) r) }
    {
        root_places_of(self.tables.as_slice(), &self.picks)
    }

    /// The property that the path is, of the entity of each instance, and the set of these entities: where all instances stand at
    /// entities of one set, and none has a column of the path, or a prefix that is not the empty one.
    pub fn own_property(&self, store: &Data, path: &Path) -> Option<(SetId, PropId)>
        ensures set { IfSome result (λ o. IsSet store.now.model o.0) }
        ensures value { IfSome result (λ o. All (IsOwn store.now path.now o.0 o.1.at) self.now) }
    {
        property_of(store, self.tables.as_slice(), path)
    }

    /// Numbers in place of the values of a path on the instances, where it is a property by which the entities of one set refer to
    /// others: 0 of null, and else one more than the place of what the entity refers to; or where all instances are of one table and
    /// it is a property of texts that are kept once each, of their entities or of what these refer to: the numbers of the texts.
    pub fn codes<R: Threads + Sync>(
        &self,
        rt: &R,
        alloc: Global,
        store: &Data,
        path: &Path,
        workers: u32,
    ) -> Result<Option<Codes>, AllocError>
        requires some { 0 < workers }
        requires of { IsTrue (all_of store.now self.now) }
        ensures value { IfOk result (λ o. IfSome o (AreCodes (key_column store.now self.now path.now))) }
        ensures within { IfOk result (λ o. IfSome o (λ _. list_any is_beyond (key_column store.now self.now path.now) ≡ false)) }
    {
        codes_of(
            rt,
            alloc,
            store,
            self.tables.as_slice(),
            &self.picks,
            path,
            workers,
        )
    }

    /// The instances on which the expression is true. No row is made or moved. The instances may be cut into so many parts, each for
    /// a thread of its own.
    pub fn filter<R: Threads + Sync>(
        self,
        rt: &R,
        alloc: Global,
        store: &Data,
        e: &Expr,
        workers: u32,
    ) -> Result<Frame, RunRefused>
        requires some { 0 < workers }
        requires of { IsTrue (all_of store.now self) }
        ensures value { spec.GivesFrame result (refused_at_beyond (values store.now (expr_of e.now) self) (filter (λ i. is_value true (val store.now i (expr_of e.now))) self)) }
    {
        let Frame { tables, picks } = self;
        let own = tables.as_slice();
        let kept = kept_picks(rt, alloc, store, own, e, &picks, workers)?;
        let picks = Picks::of_list(kept);
        Ok(Frame { tables, picks })
    }

    /// Each instance with the new columns of these items. A list of values that was there is not copied where all rows of a table are
    /// picked in their order. The instances may be cut into so many parts, each for a thread of its own, which works out values.
    pub fn compute<R: Threads + Sync>(
        self,
        rt: &R,
        alloc: Global,
        store: &Data,
        items: &[Named],
        workers: u32,
    ) -> Result<Frame, AllocError>
        requires some { 0 < workers }
        requires of { IsTrue (all_of store.now self) }
        requires free { IsTrue (all_free store.now (map named_of items.now) self) }
        ensures value { let ns = map named_of items.now in IfOk result (λ f. f ≡ map (λ i. extended i (columns_of store.now ns i)) self) }
    {
        let Frame { tables, picks } = self;
        let own = tables.as_slice();
        let columns = new_columns(rt, alloc, store, own, items, &picks, workers)?;
        let (tables, picks) = rows_in_order(alloc, tables, picks)?;
        let tables = computed_tables(alloc, tables, &picks, columns.as_slice())?;
        Ok(Frame { tables, picks })
    }

    /// Each instance with new columns of these paths, in which it has the value at its place of each list. A list of values that was
    /// there is not copied where all rows of a table are picked in their order. No row is made.
    pub fn extend(
        self,
        alloc: Global,
        columns: Vec<(Path, Vec<Value>)>,
    ) -> Result<Frame, AllocError>
        requires free { (k : ℕ) → k < length self → IsTrue (columns_differ (widened (given columns.items) self k).columns) }
        ensures value { IfOk result (λ f. f ≡ map (widened (given columns.items) self) (places (length self))) }
    {
        let Frame { tables, picks } = self;
        let columns = given_columns(alloc, columns)?;
        let (tables, picks) = rows_in_order(alloc, tables, picks)?;
        let tables = computed_tables(alloc, tables, &picks, columns.as_slice())?;
        Ok(Frame { tables, picks })
    }

    /// The first `n` instances.
    pub fn top(self, n: u64) -> Frame
        ensures value { result ≡ take n self }
    {
        let Frame { tables, picks } = self;
        let picks = picks.first(n);
        Frame { tables, picks }
    }

    /// The instances without the first `n`.
    pub fn skip(self, n: u64) -> Frame
        ensures value { result ≡ drop n self }
    {
        let Frame { tables, picks } = self;
        let picks = picks.later(n);
        Frame { tables, picks }
    }

    /// The instances at these places, in the order of the places. No row is made or moved.
    pub fn at(self, alloc: Global, places: &[usize]) -> Result<Frame, AllocError>
        requires within { IsTrue (list_all (λ k. nat_lt k (length self)) places.now) }
        ensures value { IfOk result (λ f. f ≡ at_places self places.now) }
    {
        let Frame { tables, picks } = self;
        let list = picks_at(alloc, &picks, places)?;
        let picks = Picks::of_list(list);
        Ok(Frame { tables, picks })
    }

    /// The instances at these places, in the order of the places. No row is made, and no list of a table is copied.
    pub fn picked(&self, alloc: Global, places: &[usize]) -> Result<Frame, AllocError>
        requires within { IsTrue (list_all (λ k. nat_lt k (length self.now)) places.now) }
        ensures value { IfOk result (λ f. f ≡ at_places self.now places.now) }
    {
        let tables = shared_tables(alloc, self.tables.as_slice())?;
        let list = picks_at(alloc, &self.picks, places)?;
        let picks = Picks::of_list(list);
        Ok(Frame { tables, picks })
    }

    /// How many instances there are.
    pub fn len(&self) -> usize
        ensures value { result ≡ length self.now }
    {
        self.picks.len()
    }
}

impl Frame {
    /// No instances. No memory is taken.
    pub fn none(alloc: Global) -> Frame
        ensures value { result ≡ [] }
    {
        Frame {
            tables: Vec::new(alloc),
            picks: Picks::of_list(Vec::new(alloc)),
        }
    }

    /// `count` instances without an entity, of which instance k has in the column of each path the value that stands at place k of its
    /// list. No row is made. An error also where there would be more than 2^32 instances.
    pub fn of_columns(
        alloc: Global,
        columns: Vec<(Path, Vec<Value>)>,
        count: usize,
    ) -> Result<Frame, AllocError>
        requires differ { (k : ℕ) → k < count → IsTrue (columns_differ (row_across (given columns.items) k).columns) }
        ensures value { IfOk result (λ f. f ≡ map (row_across (given columns.items)) (places count)) }
    {
        if count == 0 {
            return Ok(Frame::none(alloc));
        }
        let tables = columned_tables(alloc, columns)?;
        let picks = row_picks(count)?;
        Ok(Frame { tables, picks })
    }

    /// The same instances. No row is made, and no list of a table is copied.
    pub fn copy(&self, alloc: Global) -> Result<Frame, AllocError>
        ensures value { IfOk result (λ f. f ≡ self.now) }
    {
        let tables = shared_tables(alloc, self.tables.as_slice())?;
        let picks = self.picks.copy(alloc)?;
        Ok(Frame { tables, picks })
    }

    /// In how many tables the instances stand. Only `append` makes them more, and no answer depends on it: it tells whoever puts
    /// frames behind one another again and again when rows would take less memory than the tables.
    pub fn table_count(&self) -> usize {
        self.tables.len()
    }

    /// The instances of both, one list behind the other, in the tables of both. No row is made. An error also where there would be
    /// more than 2^32 tables.
    pub fn append(self, other: Frame) -> Result<Frame, AllocError>
        ensures value { IfOk result (λ f. f ≡ self ++ other) }
    {
        if self.len() == 0 {
            return Ok(other);
        }
        let Frame { tables, picks } = self;
        let Frame {
            tables: more,
            picks: others,
        } = other;
        let alloc = *tables.allocator();
        let first = picks.into_list(alloc)?;
        let behind = others.into_list(alloc)?;
        let list = joined_picks(tables.as_slice().len(), first, behind.as_slice())?;
        let tables = joined_tables(tables, more)?;
        let picks = Picks::of_list(list);
        Ok(Frame { tables, picks })
    }
}

impl Frame {
    /// The instances of the entities that a collection-valued navigation property relates an entity to, in data order; none where there
    /// is no entity. No row is made.
    pub fn of_related(
        alloc: Global,
        store: &Data,
        nav: NavId,
        of: Option<EntityRef>,
    ) -> Result<Frame, AllocError>
        requires there { IsNavigation store.now.model nav }
        requires of { IsTrue (is_none_or (λ e. is_some_and (λ t. t == nav.of) (entity_type store.now e)) of) }
        ensures value { (v : Navigation) → navigation_on store.now.model nav ≡ Some v → IfOk result (λ f. f ≡ map entity_instance (related_to store.now v of)) }
    {
        let model = store.model();
        let set = model.type_set(model.nav_target(nav));
        let tables = one_table(alloc, set_table(alloc, set))?;
        let list = related_picks(alloc, store, nav, of)?;
        let picks = Picks::of_list(list);
        Ok(Frame { tables, picks })
    }

    /// The places, in the set, of the instances' entities, where each is an entity of this set in a table without other prefixes and
    /// columns.
    pub fn places_in(&self, alloc: Global, set: SetId) -> Result<Option<Vec<u32>>, AllocError>
        ensures value { IfOk result (λ o. IfSome o (λ ks. map (placed set) ks.items ≡ self.now)) }
    {
        if !are_of_set(self.tables.as_slice(), set) {
            return Ok(None);
        }
        let picks = &self.picks;
        Ok(Some(picked_places(alloc, self.tables.as_slice(), set, picks)?))
    }

    /// Each instance beside each entity, under the alias, of those of the set at the places of its list. An instance whose list is
    /// empty is left out, or stands once, in an outer join, with the alias bound to none. No row is made.
    pub fn join(
        self,
        alloc: Global,
        outer: bool,
        alias: &Name,
        set: SetId,
        inner: &[Vec<u32>],
    ) -> Result<Frame, AllocError>
        requires lists { length inner.now ≡ length self }
        requires free { IsTrue (list_all (is_free_of alias.now) self) }
        ensures value { IfOk result (λ f. f ≡ bound_rows outer alias.now self (map (λ l. map (placed set) l.items) inner.now)) }
    {
        let Frame { tables, picks } = self;
        let list = picks.into_list(alloc)?;
        let repeated = repeated_picks(alloc, outer, list.as_slice(), inner)?;
        let (tables, picks) = rows_in_order(alloc, tables, Picks::of_list(repeated))?;
        let prefix = alias_prefix(alloc, outer, alias, set, inner)?;
        let tables = beside_tables(alloc, tables, &prefix)?;
        Ok(Frame { tables, picks })
    }
}
