//! Instances by their nodes in a hierarchy: climbs and traversals.
ghost use Rattle.std.specs.Prelude.{◌≡◌, ℕ, ◌+◌, ◌≤◌, Bool, IfOk, IsTrue, filter, is_some, length, map, nat_lt};
ghost use Rattle.std.specs.List.{list_all};
ghost use Rattle.edm_values.specs.Lists.{places as all_places};
ghost use Rattle.apply_ast.specs.Views.{hier_of, traverse_of};
ghost use Rattle.context_typing.specs.Typing.{hierarchy_at};
ghost use Rattle.apply_meaning.specs.Running.{Gives, all_of};
ghost use Rattle.hier_states.specs.States.{IsReadyAt};
ghost use Rattle.step_run.specs.Costs.{result_length, walk_cost};
ghost use Rattle.step_run.specs.Hierarchies.{GivesEntities, climb_from, traversal};
ghost use Rattle.row_frames.specs.Related.{placed};
ghost use Rattle.row_orders.specs.Places.{GivesOrder};

use crate::contexts::Context;
use crate::selections::rows_at;
use apply_ast::{ClimbStep, TraverseStep};
use apply_meaning::{Row, RunRefused, Steps};
use edm_model::SetId;
use hier_rows::{climb_places, climb_set, traverse_places};
use par_stages::Gate;
use row_values::RowList;
use std::alloc::Global;
use std::sync::ledger::Ledger;
use std::thread::Threads;

/// The places of the instances that a climb keeps, from the nodes of other instances on, in ascending order.
pub fn climbed_places<R: Threads + Sync, G: Gate>(
    alloc: Global,
    context: &Context<'_, R, G>,
    climb: &ClimbStep,
    rows: &RowList<'_>,
    starts: &RowList<'_>,
) -> Result<Vec<usize>, RunRefused>
    requires of { IsTrue (all_of context.now.world rows.now) }
    requires starts { IsTrue (all_of context.now.world starts.now) }
    requires there { IsTrue (is_some (hierarchy_at context.now.world.model (hier_of climb.now.hier))) }
    requires ready { IsReadyAt context.now.world context.now.hiers (hier_of climb.now.hier) }
    ensures value { GivesOrder result rows.now (climb_from context.now.world climb.now.up (hier_of climb.now.hier) climb.now.path climb.now.distance climb.now.keep rows.now starts.now) }
    ensures ascending { IfOk result (λ v. (q : ℕ → Bool) × (v.items ≡ filter q (all_places (length rows.now)))) }
    ensures within { IfOk result (λ v. IsTrue (list_all (λ k. nat_lt k (length rows.now)) v.items)) }
{
    climb_places(
        context.rt(),
        alloc,
        context.store(),
        context.nodes(&climb.hier),
        climb.up,
        &climb.path,
        climb.distance,
        climb.keep,
        rows,
        starts,
        context.workers(),
    )
}

/// The places of the entities, of the first `count` of a set, whose instances a climb keeps, from the nodes of other instances on,
/// in ascending order; none where the data does not keep the nodes of the set's entities. No list of these is made.
pub fn climbed_in_set<R: Threads + Sync, G: Gate>(
    alloc: Global,
    context: &Context<'_, R, G>,
    climb: &ClimbStep,
    set: SetId,
    count: u32,
    starts: &RowList<'_>,
) -> Result<Option<Vec<u32>>, RunRefused>
    requires starts { IsTrue (all_of context.now.world starts.now) }
    requires there { IsTrue (is_some (hierarchy_at context.now.world.model (hier_of climb.now.hier))) }
    requires ready { IsReadyAt context.now.world context.now.hiers (hier_of climb.now.hier) }
    ensures value { GivesEntities result set (climb_from context.now.world climb.now.up (hier_of climb.now.hier) climb.now.path climb.now.distance climb.now.keep (map (placed set) (all_places count)) starts.now) }
{
    climb_set(
        context.rt(),
        alloc,
        context.store(),
        context.nodes(&climb.hier),
        climb.up,
        &climb.path,
        climb.distance,
        climb.keep,
        set,
        count,
        starts,
        context.workers(),
    )
}

/// The places of the rows that a climb keeps.
fn climbed_at<R: Threads + Sync, G: Gate>(
    alloc: Global,
    context: &Context<'_, R, G>,
    climb: &ClimbStep,
    rows: &[Row],
    starts: &[Row],
) -> Result<Vec<usize>, RunRefused>
    requires of { IsTrue (all_of context.now.world rows.now) }
    requires starts { IsTrue (all_of context.now.world starts.now) }
    requires there { IsTrue (is_some (hierarchy_at context.now.world.model (hier_of climb.now.hier))) }
    requires ready { IsReadyAt context.now.world context.now.hiers (hier_of climb.now.hier) }
    ensures value { GivesOrder result rows.now (climb_from context.now.world climb.now.up (hier_of climb.now.hier) climb.now.path climb.now.distance climb.now.keep rows.now starts.now) }
    ensures ascending { IfOk result (λ v. (q : ℕ → Bool) × (v.items ≡ filter q (all_places (length rows.now)))) }
{
    let rows = RowList::of_rows(rows);
    let starts = RowList::of_rows(starts);
    climbed_places(alloc, context, climb, &rows, &starts)
}

/// The rows that a climb keeps, from the nodes of other rows on. No row is made.
pub fn climb_rows<R: Threads + Sync, G: Gate>(
    alloc: Global,
    context: &Context<'_, R, G>,
    climb: &ClimbStep,
    rows: Vec<Row>,
    starts: &[Row],
) -> Result<Vec<Row>, RunRefused>
    requires of { IsTrue (all_of context.now.world rows.items) }
    requires starts { IsTrue (all_of context.now.world starts.now) }
    requires there { IsTrue (is_some (hierarchy_at context.now.world.model (hier_of climb.now.hier))) }
    requires ready { IsReadyAt context.now.world context.now.hiers (hier_of climb.now.hier) }
    ensures mean { Gives result (climb_from context.now.world climb.now.up (hier_of climb.now.hier) climb.now.path climb.now.distance climb.now.keep rows.items starts.now) }
{
    let places = climbed_at(alloc, context, climb, rows.as_slice(), starts)?;
    Ok(rows_at(alloc, rows, places.as_slice())?)
}

/// The places of the instances that a traversal lists, node by node. Where there are items, one step for each node.
pub fn traversed_places<R: Threads + Sync, G: Gate, L: Ledger>(
    alloc: Global,
    context: &Context<'_, R, G>,
    walk: &TraverseStep,
    rows: &RowList<'_>,
    steps: &mut Steps<L>,
) -> Result<Vec<usize>, RunRefused>
    requires of { IsTrue (all_of context.now.world rows.now) }
    requires there { IsTrue (is_some (hierarchy_at context.now.world.model (traverse_of walk.now).hier)) }
    requires ready { IsReadyAt context.now.world context.now.hiers (traverse_of walk.now).hier }
    ensures value { GivesOrder result rows.now (traversal context.now.world (traverse_of walk.now) rows.now) }
    ensures within { IfOk result (λ v. IsTrue (list_all (λ k. nat_lt k (length rows.now)) v.items)) }
    ensures steps { steps.new ≤ steps.old + walk_cost context.now.world (traverse_of walk.now) }
    ensures grown { steps.old ≤ steps.new }
{
    traverse_places(
        context.rt(),
        alloc,
        context.store(),
        context.nodes(&walk.hier),
        walk,
        rows,
        context.workers(),
        steps,
    )
}

/// The rows that a traversal gives: copies of those that have a node, node by node. One step a row, and where there are items
/// one for each node.
pub fn traverse_rows<R: Threads + Sync, G: Gate, L: Ledger>(
    alloc: Global,
    context: &Context<'_, R, G>,
    walk: &TraverseStep,
    rows: &[Row],
    steps: &mut Steps<L>,
) -> Result<Vec<Row>, RunRefused>
    requires of { IsTrue (all_of context.now.world rows.now) }
    requires there { IsTrue (is_some (hierarchy_at context.now.world.model (traverse_of walk.now).hier)) }
    requires ready { IsReadyAt context.now.world context.now.hiers (traverse_of walk.now).hier }
    ensures mean { Gives result (traversal context.now.world (traverse_of walk.now) rows.now) }
    ensures steps { steps.new ≤ steps.old + result_length (traversal context.now.world (traverse_of walk.now) rows.now) + walk_cost context.now.world (traverse_of walk.now) }
    ensures grown { steps.old ≤ steps.new }
{
    let list = RowList::of_rows(rows);
    let places = traversed_places(alloc, context, walk, &list, steps)?;
    Ok(list.members(alloc, places.as_slice(), steps)?)
}
