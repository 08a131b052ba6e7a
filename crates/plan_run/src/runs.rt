//! Plans over data.
ghost use Rattle.std.specs.Prelude.{◌≡◌, ◌+◌, ◌<◌, ◌≤◌, All, IsTrue, Some};
ghost use Rattle.edm_model.specs.LookUps.{IsSet, set_type};
ghost use Rattle.apply_ast.specs.Views.{pipe_of};
ghost use Rattle.context_typing.specs.Readings.{AreTypedOver, readings};
ghost use Rattle.context_typing.specs.Typing.{customs_typed, shape_of_set};
ghost use Rattle.apply_meaning.specs.Instances as instances;
ghost use Rattle.apply_meaning.specs.Meaning.{mean};
ghost use Rattle.apply_meaning.specs.Running.{Gives};
ghost use Rattle.step_run.specs.Conditions.{AreReady, RunsFrom};
ghost use Rattle.optimiser.specs.Plans.{IsPlan, own_of, written_of};
ghost use Rattle.step_run.specs.Costs.{total_cost};
ghost use Rattle.frame_run.specs.HeldRows.{GivesHeld, owed_by, rows_of};
ghost use Rattle.hier_states.specs.NamedHierarchies.{hierarchies};
ghost use Rattle.hier_states.specs.States.{IsReadyAt};

use apply_meaning::{Row, RunRefused, Steps, data_is_loaded};
use context_typing::Customs;
use edm_data::Data;
use edm_model::TypeId;
use frame_run::{Held, held_after, made_rows};
use hier_states::HierState;
use optimiser::Plan;
use par_stages::Gate;
use std::alloc::Global;
use std::sync::ledger::Ledger;
use std::thread::Threads;
use step_run::Context;

/// A plan may be run on the instances of its entity set: it means there what was written, and names no other hierarchy.
fn plan_ready<R: Threads + Sync, G: Gate>(
    context: &Context<'_, R, G>,
    plan: &Plan,
    root: &Option<TypeId>,
    held: &Held,
)
    requires plan { IsPlan context.now.world.model (readings context.now.customs) plan.now }
    requires set { IsSet context.now.world.model (written_of plan.now).set }
    requires root { root.now ≡ Some (set_type context.now.world.model (own_of plan.now).set) }
    requires rows { rows_of held.now ≡ instances.rows context.now.world (own_of plan.now).set }
    requires named { AreReady context.now (hierarchies (pipe_of (written_of plan.now).pipe)) }
    ensures runs { let t = own_of plan.now in
        RunsFrom context.now root.now (shape_of_set context.now.world.model t.set) t.shape (pipe_of t.pipe) (rows_of held.now) }
    ensures named { AreReady context.now (hierarchies (pipe_of (own_of plan.now).pipe)) }
    ensures means { let t = own_of plan.now in let u = written_of plan.now in
        mean context.now.world (readings context.now.customs) (shape_of_set context.now.world.model t.set) (pipe_of t.pipe) (instances.rows context.now.world t.set)
        ≡ mean context.now.world (readings context.now.customs) (shape_of_set context.now.world.model u.set) (pipe_of u.pipe) (instances.rows context.now.world u.set) }
{
    data_is_loaded(context.store());
    let _customs = context.customs();
}

/// What the pipeline that was written gives on the instances of its entity set, made by the plan's own: rows, or instances of which no
/// row is made. `hiers` has the states of the model's hierarchies. Lists of values and of keys are folded in at most `workers` pieces,
/// each of which tells the gate that it begins.
pub fn run_unmade<R: Threads + Sync, G: Gate, L: Ledger>(
    rt: &R,
    alloc: Global,
    store: &Data,
    c: &Customs,
    hiers: &[HierState],
    plan: &Plan,
    workers: u32,
    gate: &G,
    steps: &mut Steps<L>,
) -> Result<Held, RunRefused>
    requires some { 0 < workers }
    requires few { workers ≤ 64 }
    requires typed { AreTypedOver store.now.model c.now }
    requires customs { IsTrue (customs_typed store.now.model (readings c.now)) }
    requires plan { IsPlan store.now.model (readings c.now) plan.now }
    requires set { IsSet store.now.model (written_of plan.now).set }
    requires ready { All (IsReadyAt store.now hiers.now) (hierarchies (pipe_of (written_of plan.now).pipe)) }
    ensures mean { let t = written_of plan.now in
        GivesHeld result (mean store.now (readings c.now) (shape_of_set store.now.model t.set) (pipe_of t.pipe) (instances.rows store.now t.set)) }
    ensures steps { let t = own_of plan.now in steps.new + owed_by result ≤ steps.old + total_cost store.now (readings c.now) t.set (pipe_of t.pipe) }
    ensures grown { steps.old ≤ steps.new }
{
    let typed = plan.typed();
    let held = Held::of_set(store, typed.set);
    let context = Context::new(rt, store, c, hiers, workers, gate);
    let root = Some(store.model().set_type(typed.set));
    plan_ready(&context, plan, &root, &held);
    held_after(alloc, &context, &root, &typed.pipe, held, steps)
}

/// The rows that the pipeline that was written gives on the instances of its entity set, made by the plan's own. `hiers` has the
/// states of the model's hierarchies. Lists of values and of keys are folded in at most `workers` pieces, each of which tells the
/// gate that it begins.
pub fn run<R: Threads + Sync, G: Gate, L: Ledger>(
    rt: &R,
    alloc: Global,
    store: &Data,
    c: &Customs,
    hiers: &[HierState],
    plan: &Plan,
    workers: u32,
    gate: &G,
    steps: &mut Steps<L>,
) -> Result<Vec<Row>, RunRefused>
    requires some { 0 < workers }
    requires few { workers ≤ 64 }
    requires typed { AreTypedOver store.now.model c.now }
    requires customs { IsTrue (customs_typed store.now.model (readings c.now)) }
    requires plan { IsPlan store.now.model (readings c.now) plan.now }
    requires set { IsSet store.now.model (written_of plan.now).set }
    requires ready { All (IsReadyAt store.now hiers.now) (hierarchies (pipe_of (written_of plan.now).pipe)) }
    ensures mean { let t = written_of plan.now in
        Gives result (mean store.now (readings c.now) (shape_of_set store.now.model t.set) (pipe_of t.pipe) (instances.rows store.now t.set)) }
    ensures steps { let t = own_of plan.now in steps.new ≤ steps.old + total_cost store.now (readings c.now) t.set (pipe_of t.pipe) }
    ensures grown { steps.old ≤ steps.new }
{
    let held = run_unmade(rt, alloc, store, c, hiers, plan, workers, gate, steps)?;
    Ok(made_rows(alloc, held, steps)?)
}
