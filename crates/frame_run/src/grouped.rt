//! Groups of a frame: what a grouping gives at once, and the instances of one group.
ghost use Rattle.std.specs.Prelude.{◌≡◌, ◌+◌, ◌≤◌, Some, IfOk, IsTrue, length, nat_lt};
ghost use Rattle.std.specs.List.{list_all};
ghost use Rattle.edm_values.specs.Lists.{at_places};
ghost use Rattle.apply_ast.specs.Views.{step_of};
ghost use Rattle.context_typing.specs.Readings.{readings};
ghost use Rattle.context_typing.specs.Shapes.{Shape};
ghost use Rattle.apply_meaning.specs.Meaning.{Outcome, step_mean};
ghost use Rattle.step_run.specs.Conditions.{StepReadyFrom, StepRunsFrom};
ghost use Rattle.step_run.specs.GroupTotals.{GivesFound};
ghost use Rattle.frame_run.specs.HeldRows as spec;

use crate::held::Held;
use apply_ast::{Pipe, Step};
use apply_meaning::{RunRefused, Steps};
use edm_model::TypeId;
use par_stages::Gate;
use row_frames::Frame;
use row_values::RowList;
use std::alloc::{AllocError, Global};
use std::sync::ledger::Ledger;
use std::thread::Threads;
use step_run::{Context, grouped_frame, kept_frame};

/// The most tables that a frame of groups has. New columns are made for all tables of a frame at once, so that rows take less memory
/// than many tables, as those of a rollup of many levels.
const MOST_LEVELS: usize = 4;

/// A frame of groups, or its rows where it has many tables.
pub(crate) fn held_groups<L: Ledger>(
    alloc: Global,
    made: Frame,
    steps: &mut Steps<L>,
) -> Result<Held, RunRefused>
    ensures gives { (m : Outcome) → m ≡ Some made → spec.GivesHeld result m }
    ensures steps { steps.new + spec.owed_by result ≤ steps.old + length made }
    ensures grown { steps.old ≤ steps.new }
{
    if made.table_count() > MOST_LEVELS {
        return Ok(Held::Rows(made.into_rows(alloc, steps)?));
    }
    Ok(Held::Frame(made))
}

/// What a grouping gives on a frame, as a frame, where its inner pipeline only keeps some of the instances of each group, or puts them
/// in order, or where its groups are told by numbers; nothing elsewhere.
pub(crate) fn frame_of_groups<R: Threads + Sync, G: Gate>(
    alloc: Global,
    context: &Context<'_, R, G>,
    root: &Option<TypeId>,
    step: &Step,
    frame: &Frame,
) -> Result<Option<Frame>, RunRefused>
    requires ready { StepReadyFrom context.now root.now (step_of step.now) frame.now }
    ensures mean { (S S' : Shape) → StepRunsFrom context.now root.now S S' (step_of step.now) frame.now
        → GivesFound result (step_mean context.now.world (readings context.now.customs) S (step_of step.now) frame.now) }
{
    match kept_frame(alloc, context, root, step, frame)? {
        Some(made) => Ok(Some(made)),
        None => {
            let list = RowList::of_frame(frame);
            grouped_frame(alloc, context, root, step, &list)
        }
    }
}

/// Whether the pipeline begins with an aggregation, which takes the values of its items at the places of a group, so that no list of
/// the group's instances is wanted. What is run gives the same in either case.
pub(crate) fn begins_with_values(pipe: &Pipe) -> bool {
    match &pipe.steps()[0] {
        Step::Aggregate(_) => true,
        _ => false,
    }
}

/// The fewest instances of which a frame is made. To read names once for a frame costs more than the rows of fewer.
const FEWEST: usize = 16;

/// The instances at these places of a list: a frame, or rows where they are few, or where the list is rows. Both are the same
/// instances.
pub(crate) fn group_of<L: Ledger>(
    alloc: Global,
    rows: &RowList<'_>,
    places: &[usize],
    steps: &mut Steps<L>,
) -> Result<Held, AllocError>
    requires within { IsTrue (list_all (λ k. nat_lt k (length rows.now)) places.now) }
    ensures rows { IfOk result (λ h. spec.rows_of h ≡ at_places rows.now places.now) }
    ensures steps { steps.new + spec.owed_by result ≤ steps.old + length (at_places rows.now places.now) }
    ensures grown { steps.old ≤ steps.new }
{
    if places.len() >= FEWEST {
        if let Some(frame) = rows.frame() {
            return Ok(Held::Frame(frame.picked(alloc, places)?));
        }
    }
    Ok(Held::Rows(rows.members(alloc, places, steps)?))
}
