//! Plain pipelines: those that need neither an order, nor groups, nor another pipeline.
ghost use Rattle.std.specs.Prelude.{◌≡◌, ◌+◌, ◌≤◌, ◌<◌, IsTrue, IfOk, Some, drop, get_or, length, map};
ghost use Rattle.std.specs.List.{list_all};
ghost use Rattle.edm_model.specs.LookUps.{IsSet};
ghost use Rattle.apply_ast.specs.Trees as tree;
ghost use Rattle.apply_ast.specs.Trees.{pipe};
ghost use Rattle.apply_ast.specs.Views.{agg_of, pipe_of, step_of};
ghost use Rattle.context_typing.specs.Answers.{IsTyping};
ghost use Rattle.context_typing.specs.Readings.{readings};
ghost use Rattle.context_typing.specs.Shapes.{Shape};
ghost use Rattle.context_typing.specs.Typing as typing;
ghost use Rattle.context_typing.specs.Typing.{customs_typed, shape_of_set};
ghost use Rattle.apply_meaning.specs.Instances as instances;
ghost use Rattle.apply_meaning.specs.Counts.{all_made, rows_made};
ghost use Rattle.apply_meaning.specs.Meaning.{mean, step_mean};
ghost use Rattle.apply_meaning.specs.Running as spec;
ghost use Rattle.apply_meaning.specs.Running.{AreSummable, Gives, ItemsDiffer, Ready, Runs, StepReady, StepRuns};

use crate::aggregations::aggregate_rows;
use crate::computes::compute_rows;
use crate::filters::{filter_rows, skip_rows, top_rows};
use crate::laws::data_is_loaded;
use crate::sets::set_rows;
use crate::{Row, RunRefused, Steps};
use apply_ast::{AggItem, AggList, Pipe, Step};
use context_typing::{Customs, Typed};
use edm_data::Data;
use std::alloc::{AllocError, Global};
use std::sync::ledger::Ledger;

/// Whether all transformations are plain.
fn are_plain(steps: &[Step]) -> bool
    ensures { result ≡ list_all (λ step. spec.is_plain_step (step_of step)) steps.now }
{
    steps.iter().all(|step| is_plain_step(step))
}

/// Whether the pipeline is plain: its transformations are `identity`, `filter`, `compute`, `skip`, `top`, and `aggregate`
/// without custom aggregates.
pub fn is_plain(pipe: &Pipe) -> bool
    ensures value { result ≡ spec.is_plain (pipe_of pipe.now) }
{
    are_plain(pipe.steps())
}

/// Whether the transformation is one of these.
pub fn is_plain_step(step: &Step) -> bool
    ensures value { result ≡ spec.is_plain_step (step_of step.now) }
{
    match step {
        Step::Identity | Step::Filter(_) | Step::Compute(_) | Step::Skip(_) | Step::Top(_) => true,
        Step::Aggregate(items) => are_standard(items.as_slice()),
        _ => false,
    }
}

/// Whether no item is a custom aggregate.
fn are_standard(items: &[AggItem]) -> bool
    ensures { result ≡ list_all (λ item. spec.is_standard (agg_of item)) items.now }
{
    items
        .iter()
        .all(|item| !matches!(item, AggItem::Custom(..)))
}

/// The items of an aggregation can be evaluated on the rows.
fn aggregation_ready(store: &Data, items: &AggList, rows: &[Row])
    requires ready { StepReady store.now (tree.Step.Aggregate (map agg_of items.now)) rows.now }
    requires standard { IsTrue (list_all spec.is_standard (map agg_of items.now)) }
    ensures summable { AreSummable store.now rows.now (map agg_of items.now) }
    ensures differ { ItemsDiffer store.now rows.now (map agg_of items.now) }
{
    data_is_loaded(store);
}

/// The row of an aggregation, alone in a list: one step.
pub fn aggregation_rows<L: Ledger>(
    alloc: Global,
    store: &Data,
    items: &AggList,
    rows: Vec<Row>,
    steps: &mut Steps<L>,
) -> Result<Vec<Row>, AllocError>
    requires ready { StepReady store.now (tree.Step.Aggregate (map agg_of items.now)) rows.items }
    requires standard { IsTrue (list_all spec.is_standard (map agg_of items.now)) }
    ensures mean { (c : typing.Customs) (S : Shape) → IfOk result (λ made. step_mean store.now c S (tree.Step.Aggregate (map agg_of items.now)) rows.items ≡ Some made.items) }
    ensures each { IfOk result (λ made. steps.new ≡ steps.old + length made.items) }
    ensures steps { steps.new ≤ steps.old + 1 }
    ensures grown { steps.old ≤ steps.new }
{
    aggregation_ready(store, items, rows.as_slice());
    let mut made = Vec::new(alloc);
    made.push(aggregate_rows(alloc, store, items.as_slice(), rows.as_slice(), steps)?)?;
    Ok(made)
}

/// The rows that a plain transformation gives: one step for each row that it makes.
fn plain_step<L: Ledger>(
    alloc: Global,
    store: &Data,
    step: &Step,
    rows: Vec<Row>,
    steps: &mut Steps<L>,
) -> Result<Vec<Row>, RunRefused>
    requires ready { StepReady store.now (step_of step.now) rows.items }
    requires plain { IsTrue (spec.is_plain_step (step_of step.now)) }
    ensures mean { (c : typing.Customs) (S S' : Shape) → StepRuns store.now c S S' (step_of step.now) rows.items → Gives result (step_mean store.now c S (step_of step.now) rows.items) }
    ensures each { IfOk result (λ made. steps.new ≡ steps.old + rows_made (step_of step.now) rows.items) }
    ensures steps { steps.new ≤ steps.old + rows_made (step_of step.now) rows.items }
    ensures grown { steps.old ≤ steps.new }
{
    data_is_loaded(store);
    match step {
        Step::Identity => Ok(rows),
        Step::Filter(e) => filter_rows(alloc, store, e, rows),
        Step::Compute(items) => Ok(compute_rows(alloc, store, items.as_slice(), rows, steps)?),
        Step::Skip(n) => Ok(skip_rows(*n, rows)),
        Step::Top(n) => Ok(top_rows(*n, rows)),
        Step::Aggregate(items) => Ok(aggregation_rows(alloc, store, items, rows, steps)?),
        _ => unreachable!(),
    }
}

/// The next transformation of a pipeline may be run.
fn step_ready(store: &Data, steps: &[Step], i: usize, step: &Step, rows: &Vec<Row>)
    requires within { i < length steps.now }
    requires step { step.now ≡ get_or steps.now i step.now }
    requires ready { Ready store.now (pipe (map step_of (drop i steps.now))) rows.now.items }
    ensures { StepReady store.now (step_of step.now) rows.now.items }
{}

/// A typed pipeline may be run on the instances of its entity set.
fn typed_ready(store: &Data, c: &Customs, t: &Typed, rows: &Vec<Row>)
    requires customs { IsTrue (customs_typed store.now.model (readings c.now)) }
    requires typing { IsTyping store.now.model (readings c.now) t.now }
    requires set { IsSet store.now.model t.now.set }
    requires rows { rows.now.items ≡ instances.rows store.now t.now.set }
    ensures { Runs store.now (readings c.now) (shape_of_set store.now.model t.now.set) t.now.shape (pipe_of t.now.pipe) rows.now.items }
{
    data_is_loaded(store);
}

/// The rows that a plain typed pipeline gives on the instances of its entity set: one step for each row that is made on the way.
pub fn run_plain<L: Ledger>(
    alloc: Global,
    store: &Data,
    c: &Customs,
    t: &Typed,
    steps: &mut Steps<L>,
) -> Result<Vec<Row>, RunRefused>
    requires customs { IsTrue (customs_typed store.now.model (readings c.now)) }
    requires typing { IsTyping store.now.model (readings c.now) t.now }
    requires set { IsSet store.now.model t.now.set }
    requires plain { IsTrue (spec.is_plain (pipe_of t.now.pipe)) }
    ensures mean { Gives result (mean store.now (readings c.now) (shape_of_set store.now.model t.now.set) (pipe_of t.now.pipe) (instances.rows store.now t.now.set)) }
    ensures each { IfOk result (λ rows. steps.new ≡ steps.old + all_made store.now (readings c.now) t.now.set (pipe_of t.now.pipe)) }
    ensures steps { steps.new ≤ steps.old + all_made store.now (readings c.now) t.now.set (pipe_of t.now.pipe) }
    ensures grown { steps.old ≤ steps.new }
{
    let rows = set_rows(alloc, store, t.set, steps)?;
    typed_ready(store, c, t, &rows);
    data_is_loaded(store);
    let mut rows = rows;
    let all = t.pipe.steps();
    for (i, step) in all.iter().enumerate() {
        step_ready(store, all, i, step, &rows);
        rows = plain_step(alloc, store, step, rows, steps)?;
    }
    Ok(rows)
}
