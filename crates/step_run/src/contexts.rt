//! What a run works with.
ghost use Rattle.std.specs.Prelude.{◌≡◌, ℕ, ◌++◌, ◌+◌, ◌<◌, ◌≤◌, All, Some, IfOk, IfSome, IsTrue, is_some, filter, length, map, nat_lt, slice_index_or, true};
ghost use Rattle.std.specs.List.{list_all};
ghost use Rattle.edm_values.specs.declared.Value.{Value as Value'};
ghost use Rattle.edm_values.specs.Lists.{at_places, places};
ghost use Rattle.edm_values.specs.Values.{is_value, seen_value};
ghost use Rattle.edm_model.specs.LookUps.{HierarchyPlace, IsCustom, IsSet};
ghost use Rattle.edm_data.specs.Hierarchies.{rows_under};
ghost use Rattle.edm_data.specs.Nodes.{parents_of};
ghost use Rattle.apply_ast.specs.Views.{expr_of, hier_of, named_of};
ghost use Rattle.context_typing.specs.Readings.{AreTypedOver, readings, typed_at};
ghost use Rattle.context_typing.specs.Typing.{RollupPart, customs_typed, hierarchy_at};
ghost use Rattle.apply_meaning.specs.Aggregates as aggregates;
ghost use Rattle.apply_meaning.specs.Instances.{extended, val};
ghost use Rattle.apply_meaning.specs.Meaning.{key_list, level_paths, refused_at_beyond, values};
ghost use Rattle.apply_meaning.specs.Running.{Gives, all_free, all_of, new_columns};
ghost use Rattle.aggregate_ops.specs.KeyTables.{HasWidth};
ghost use Rattle.aggregate_ops.specs.Partials.{AreFoldable};
ghost use Rattle.custom_agg.specs.CustomValues.{value_by_id, HaveRoot};
ghost use Rattle.group_rollup.specs.Groupings.{groups, level_groups, GivesFor};
ghost use Rattle.group_rollup.specs.NumberedBy.{AreNumberedBy, AreNumberedByEach};
ghost use Rattle.hier_states.specs.States.{IsReadyAt};
ghost use Rattle.numbered_groups.specs.Numbered.{places_with};
ghost use Rattle.rollup_rec.specs.Rollups.{rolled, width_of};

use aggregate_ops::{Groups, aggregate_places, aggregate_values};
use apply_ast::{Expr, HierName, Named, Path};
use apply_meaning::{Row, RunRefused, Steps};
use context_typing::Customs;
use custom_agg::custom_at;
use edm_data::Data;
use edm_model::CustomId;
use edm_values::{Method, Seen, Value};
use group_rollup::{group_list, list_keys, numbered_levels, numbered_list, rollup_list};
use hier_index::Index;
use hier_states::{HierState, Nodes, nodes_at};
use numbered_groups::NumberedGroups;
use par_stages::{Gate, workers_for};
use rollup_rec::{NodeNumbers, NodeValues, roll};
use row_values::{PlacedRows, RowList, compute_rows, filter_rows};
use std::alloc::{AllocError, Global};
use std::marker::Model;
use std::sync::ledger::Ledger;
use std::thread::Threads;

/// The data with the custom aggregates of its model and the states of its hierarchies, and the threads that fold lists of it.
#[derive(Drop)]
pub struct Context<'a, R: Threads + Sync, G: Gate> {
    rt: &'a R,
    store: &'a Data,
    customs: &'a Customs,
    hiers: &'a [HierState],
    workers: u32,
    gate: &'a G,
}

impl<'a, R: Threads + Sync, G: Gate> Model for Context<'a, R, G> {
    ghost use Rattle.std.specs.Coded.{codes};
    ghost use Rattle.std.specs.Prelude.{◌<◌, ◌≤◌, IsTrue};
    ghost use Rattle.apply_ast.specs.contracts.expressions.Expr as of_expr;
    ghost use Rattle.context_typing.specs.Readings.{AreTypedOver, readings};
    ghost use Rattle.context_typing.specs.Typing.{customs_typed};
    ghost use Rattle.step_run.specs.Contexts as seen;

    ghost Value = { seen.Context };

    ghost coded = { Prim.hlevel (codes, of_expr.the_row.coded) };

    ghost view = { λ s. record { world = s.store.now; customs = s.customs.now; hiers = s.hiers.now } };

    ghost invariant = { λ s. AreTypedOver s.store.now.model s.customs.now × IsTrue (customs_typed s.store.now.model (readings s.customs.now))
        × (0 < s.workers) × (s.workers ≤ 64) };
}

impl<'a, R: Threads + Sync, G: Gate> Context<'a, R, G> {
    /// The data with the custom aggregates of its model and the states of its hierarchies, whose lists are folded in at most
    /// so many pieces.
    pub fn new(
        rt: &'a R,
        store: &'a Data,
        customs: &'a Customs,
        hiers: &'a [HierState],
        workers: u32,
        gate: &'a G,
    ) -> Context<'a, R, G>
        requires some { 0 < workers }
        requires few { workers ≤ 64 }
        requires typed { AreTypedOver store.now.model customs.now }
        requires whole { IsTrue (customs_typed store.now.model (readings customs.now)) }
        ensures value { result ≡ record { world = store.now; customs = customs.now; hiers = hiers.now } }
    {
        Context {
            rt,
            store,
            customs,
            hiers,
            workers,
            gate,
        }
    }

    /// The same data, whose lists are folded in one piece: for pipelines that are run again and again, on few rows each.
    pub fn alone(&self) -> Context<'a, R, G>
        ensures value { result ≡ self.now }
    {
        Context {
            rt: self.rt,
            store: self.store,
            customs: self.customs,
            hiers: self.hiers,
            workers: 1,
            gate: self.gate,
        }
    }

    /// How many of the workers a list of n items is worth. Of two workers both are asked for, however short the list, so that
    /// it can be seen that a fold is cut; more of them leave a short list to one, since a thread costs more than it saves there.
    fn hands(&self, n: usize) -> u32
        ensures some { 0 < result }
        ensures few { result ≤ 64 }
    {
        let least = if self.workers == 2 { 2 } else { 1 };
        workers_for(n, least, self.workers)
    }

    /// What starts threads.
    pub fn rt(&self) -> &R {
        self.rt
    }

    /// The data.
    pub fn store(&self) -> &Data
        ensures value { result.now ≡ self.now.world }
    {
        self.store
    }

    /// The custom aggregates of the model.
    pub fn customs(&self) -> &Customs
        ensures value { result.now ≡ self.now.customs }
        ensures typed { AreTypedOver self.now.world.model result.now }
        ensures whole { IsTrue (customs_typed self.now.world.model (readings result.now)) }
    {
        self.customs
    }

    /// How many workers a run has.
    pub fn workers(&self) -> u32
        ensures some { 0 < result }
        ensures few { result ≤ 64 }
    {
        self.workers
    }

    /// The aggregate by a method of the values of an expression on rows, which are of one type.
    pub(crate) fn aggregate_on(
        &self,
        alloc: Global,
        method: Method,
        e: &Expr,
        rows: &PlacedRows<'_>,
    ) -> Result<Value, AllocError>
        requires of { IsTrue (all_of self.now.world rows.now) }
        requires kind { AreFoldable method (values self.now.world (expr_of e.now) rows.now) }
        ensures { IfOk result (λ v. v ≡ aggregates.aggregate method (values self.now.world (expr_of e.now) rows.now)) }
    {
        let hands = self.hands(rows.len());
        rows.aggregate(self.rt, alloc, self.store, e, method, hands, self.gate)
    }

    /// The aggregate of values of one type by a method.
    pub fn aggregate(
        &self,
        alloc: Global,
        method: Method,
        values: &[Value],
    ) -> Result<Value, AllocError>
        requires { AreFoldable method values.now }
        ensures value { IfOk result (λ v. v ≡ aggregates.aggregate method values.now) }
    {
        let hands = self.hands(values.len());
        aggregate_values(self.rt, alloc, method, values, hands, self.gate)
    }

    /// The aggregate by a method of those of the values that stand at these places.
    pub(crate) fn aggregate_at(
        &self,
        alloc: Global,
        method: Method,
        values: &[Value],
        places: &[usize],
    ) -> Result<Value, AllocError>
        requires within { IsTrue (list_all (λ k. nat_lt k (length values.now)) places.now) }
        requires kind { AreFoldable method (at_places values.now places.now) }
        ensures { IfOk result (λ v. v ≡ aggregates.aggregate method (at_places values.now places.now)) }
    {
        if self.hands(places.len()) == 1 {
            return aggregate_places(self.rt, alloc, method, values, places, self.gate);
        }
        let own = copies_at(alloc, values, places)?;
        self.aggregate(alloc, method, own.as_slice())
    }

    /// The values of an expression on rows.
    pub(crate) fn values(
        &self,
        alloc: Global,
        e: &Expr,
        rows: &PlacedRows<'_>,
    ) -> Result<Vec<Value>, AllocError>
        requires { IsTrue (all_of self.now.world rows.now) }
        ensures { IfOk result (λ vs. vs.items ≡ values self.now.world (expr_of e.now) rows.now) }
    {
        rows.values(self.rt, alloc, self.store, e, self.workers)
    }

    /// The values of an expression on instances, which borrow their texts.
    pub(crate) fn seen_values<'s>(
        &'s self,
        alloc: Global,
        e: &'s Expr,
        rows: &'s RowList<'_>,
    ) -> Result<Vec<Seen<'s>>, AllocError>
        requires { IsTrue (all_of self.now.world rows.now) }
        ensures { IfOk result (λ vs. map (λ v. seen_value v) vs.items ≡ values self.now.world (expr_of e.now) rows.now) }
    {
        rows.seen_values(self.rt, alloc, self.store, e, self.workers)
    }

    /// Each row with its new columns: one step a row.
    pub fn compute<L: Ledger>(
        &self,
        alloc: Global,
        items: &[Named],
        rows: Vec<Row>,
        steps: &mut Steps<L>,
    ) -> Result<Vec<Row>, AllocError>
        requires of { IsTrue (all_of self.now.world rows.items) }
        requires free { IsTrue (all_free self.now.world (map named_of items.now) rows.items) }
        ensures rows { let ns = map named_of items.now in IfOk result (λ made. made.items ≡ map (λ i. extended i (new_columns self.now.world ns i)) rows.items) }
        ensures steps { steps.new ≤ steps.old + length rows.items }
        ensures grown { steps.old ≤ steps.new }
    {
        compute_rows(self.rt, alloc, self.store, items, rows, self.workers, steps)
    }

    /// The rows on which an expression is true. `Range` where its value on a row is past its range.
    pub fn filter(&self, alloc: Global, e: &Expr, rows: Vec<Row>) -> Result<Vec<Row>, RunRefused>
        requires of { IsTrue (all_of self.now.world rows.items) }
        ensures value { Gives result (refused_at_beyond (values self.now.world (expr_of e.now) rows.items) (filter (λ i. is_value true (val self.now.world i (expr_of e.now))) rows.items)) }
    {
        filter_rows(self.rt, alloc, self.store, e, rows, self.workers)
    }

    /// The value of a custom aggregate on rows.
    pub(crate) fn custom(
        &self,
        alloc: Global,
        id: CustomId,
        rows: &PlacedRows<'_>,
    ) -> Result<Value, AllocError>
        requires there { IsCustom self.now.world.model id }
        requires read { IsTrue (is_some (typed_at self.now.customs id)) }
        requires fit { HaveRoot self.now.world id.of rows.now }
        ensures { IfOk result (λ v. Some v ≡ value_by_id self.now.world self.now.customs id rows.now) }
    {
        let hands = self.hands(rows.len());
        custom_at(
            self.rt,
            alloc,
            self.store,
            rows,
            self.customs,
            id,
            hands,
            self.gate,
        )
    }

    /// The groups of a list by key paths.
    pub(crate) fn group(
        &self,
        alloc: Global,
        rows: &RowList<'_>,
        keys: &[Path],
    ) -> Result<Groups, RunRefused>
        requires { IsTrue (all_of self.now.world rows.now) }
        ensures { GivesFor (λ found. found ≡ groups self.now.world keys.now rows.now) self.now.world keys.now rows.now result }
    {
        let hands = self.hands(rows.len());
        group_list(self.rt, alloc, self.store, rows, keys, hands, self.gate)
    }

    /// The groups of a list by each level of a rollup, the finest first.
    pub(crate) fn rollup(
        &self,
        alloc: Global,
        rows: &RowList<'_>,
        keys: &[Path],
        levels: &[Path],
        with_all: bool,
    ) -> Result<Vec<Groups>, RunRefused>
        requires { IsTrue (all_of self.now.world rows.now) }
        ensures { GivesFor (λ found. found.items ≡ level_groups self.now.world keys.now levels.now with_all rows.now) self.now.world (keys.now ++ levels.now) rows.now result }
    {
        let hands = self.hands(rows.len());
        rollup_list(
            self.rt, alloc, self.store, rows, keys, levels, with_all, hands, self.gate,
        )
    }

    /// The groups of a list by key paths, told by numbers.
    pub(crate) fn numbered(
        &self,
        alloc: Global,
        rows: &RowList<'_>,
        keys: &[Path],
    ) -> Result<NumberedGroups, RunRefused>
        requires { IsTrue (all_of self.now.world rows.now) }
        ensures { GivesFor (AreNumberedBy self.now.world keys.now rows.now) self.now.world keys.now rows.now result }
    {
        let hands = self.hands(rows.len());
        numbered_list(self.rt, alloc, self.store, rows, keys, hands, self.gate)
    }

    /// The groups of a list by each level of a rollup, the finest first, told by numbers.
    pub(crate) fn numbered_levels(
        &self,
        alloc: Global,
        rows: &RowList<'_>,
        keys: &[Path],
        levels: &[Path],
        with_all: bool,
    ) -> Result<Vec<NumberedGroups>, RunRefused>
        requires { IsTrue (all_of self.now.world rows.now) }
        ensures { GivesFor (λ found. AreNumberedByEach self.now.world (level_paths keys.now (RollupPart.Levels with_all levels.now)) rows.now found.items) self.now.world (keys.now ++ levels.now) rows.now result }
    {
        let hands = self.hands(rows.len());
        numbered_levels(
            self.rt, alloc, self.store, rows, keys, levels, with_all, hands, self.gate,
        )
    }

    /// For each group of a list, of whose numbers there are `count`, the aggregate by a method of the values of an expression on its
    /// instances. All values are of one type.
    pub(crate) fn aggregates_by(
        &self,
        alloc: Global,
        method: Method,
        e: &Expr,
        rows: &RowList<'_>,
        numbers: &[u32],
        count: usize,
    ) -> Result<Vec<Value>, AllocError>
        requires of { IsTrue (all_of self.now.world rows.now) }
        requires kind { AreFoldable method (values self.now.world (expr_of e.now) rows.now) }
        requires size { length numbers.now ≡ length rows.now }
        requires there { All (λ n. n < count) numbers.now }
        ensures { IfOk result (λ vs. vs.items ≡ map (λ j. aggregates.aggregate method (at_places (values self.now.world (expr_of e.now) rows.now) (places_with numbers.now j))) (places count)) }
    {
        let hands = self.hands(rows.len());
        rows.aggregates_by(
            self.rt, alloc, self.store, e, method, numbers, count, hands, self.gate,
        )
    }

    /// For each node of a hierarchy the aggregate by a method of the values of an expression on the instances of a list whose node is
    /// it or a descendant of it; none of counts of distinct values of which one is past its range. All values are of one type.
    pub(crate) fn node_values<'n>(
        &self,
        alloc: Global,
        method: Method,
        e: &Expr,
        rows: &RowList<'_>,
        told: &NodeNumbers<'n, '_>,
    ) -> Result<Option<NodeValues<'n>>, AllocError>
        requires of { IsTrue (all_of self.now.world rows.now) }
        requires kind { AreFoldable method (values self.now.world (expr_of e.now) rows.now) }
        requires size { length rows.now ≡ length told.now.nodes }
        ensures size { IfOk result (λ o. IfSome o (λ v. length v ≡ length told.now.parents)) }
        ensures value { IfOk result (λ o. IfSome o (λ v. (x : ℕ) → x < length told.now.parents → slice_index_or v x Value'.Null ≡ aggregates.aggregate method (at_places (values self.now.world (expr_of e.now) rows.now) (rows_under told.now.parents x told.now.nodes)))) }
    {
        let hands = self.hands(rows.len());
        told.values(
            self.rt, alloc, self.store, e, method, rows, hands, self.gate,
        )
    }

    /// The key list of each instance of a list by the paths.
    pub(crate) fn key_lists(
        &self,
        alloc: Global,
        keys: &[Path],
        rows: &RowList<'_>,
    ) -> Result<Vec<Vec<Value>>, RunRefused>
        requires { IsTrue (all_of self.now.world rows.now) }
        ensures { GivesFor (λ lists. map (λ k. k.items) lists.items ≡ map (key_list self.now.world keys.now) rows.now) self.now.world keys.now rows.now result }
    {
        list_keys(self.rt, alloc, self.store, keys, rows, self.workers)
    }

    /// What a pipeline takes of a hierarchy that it names.
    pub fn nodes(&self, name: &HierName) -> Nodes<'_>
        requires there { IsTrue (is_some (hierarchy_at self.now.world.model (hier_of name.now))) }
        requires ready { IsReadyAt self.now.world self.now.hiers (hier_of name.now) }
        ensures set { (f : HierarchyPlace) → hierarchy_at self.now.world.model (hier_of name.now) ≡ Some f → result.set ≡ f.set }
        ensures index { (f : HierarchyPlace) → hierarchy_at self.now.world.model (hier_of name.now) ≡ Some f → result.index.now ≡ parents_of self.now.world f }
        ensures is_set { IsSet self.now.world.model result.set }
    {
        nodes_at(self.store, self.hiers, name)
    }

    /// For each node that is shown and has rows, the groups of the rows at it or below it by their key lists.
    pub(crate) fn roll(
        &self,
        alloc: Global,
        index: &Index,
        nodes: &[Option<u32>],
        shown: &[u32],
        keys: &[Vec<Value>],
    ) -> Result<Vec<(u32, Groups)>, AllocError>
        requires rows { length keys.now ≡ length nodes.now }
        requires nodes { All (λ n. IfSome n (λ y. y < length index.now)) nodes.now }
        requires shown { All (λ y. y < length index.now) shown.now }
        requires width { All (HasWidth (width_of keys.now)) keys.now }
        ensures { IfOk result (λ v. v.items ≡ rolled index.now nodes.now (map (λ k. k.items) keys.now) shown.now) }
    {
        let hands = self.hands(keys.len());
        roll(self.rt, alloc, index, nodes, shown, keys, hands, self.gate)
    }
}

/// Copies of the values at these places.
fn copies_at(alloc: Global, values: &[Value], places: &[usize]) -> Result<Vec<Value>, AllocError>
    requires { IsTrue (list_all (λ k. nat_lt k (length values.now)) places.now) }
    ensures { IfOk result (λ copies. copies.items ≡ at_places values.now places.now) }
{
    let mut copies = Vec::with_capacity(alloc, places.len())?;
    for at in places {
        copies.push(values[*at].seen().own(alloc)?)?;
    }
    Ok(copies)
}
