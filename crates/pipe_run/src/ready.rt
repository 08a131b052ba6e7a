//! What a run of a pipeline asks of its rows holds of the rows of its parts: nothing is run here.
ghost use Rattle.std.specs.Prelude.{◌≡◌, ◌+◌, ◌<◌, Option, Some, IsTrue, length, drop, get_or, map, option_map};
ghost use Rattle.edm_values.specs.Lists.{at_places};
ghost use Rattle.edm_model.specs.LookUps.{navigation_on};
ghost use Rattle.edm_model.specs.Models.{Navigation};
ghost use Rattle.apply_ast.specs.Trees as tree;
ghost use Rattle.apply_ast.specs.Trees.{pipe};
ghost use Rattle.apply_ast.specs.Views.{inner_of, pipe_of, pipes_in, pipes_of, step_of, top_of};
ghost use Rattle.context_typing.specs.Shapes.{Shape};
ghost use Rattle.context_typing.specs.Typing as typing;
ghost use Rattle.context_typing.specs.Typing.{root_type};
ghost use Rattle.apply_meaning.specs.Meaning as meaning;
ghost use Rattle.apply_meaning.specs.Instances as instances;
ghost use Rattle.apply_meaning.specs.Meaning.{values};
ghost use Rattle.apply_meaning.specs.Running.{all_of};
ghost use Rattle.pipe_run.specs.SeveralRuns.{BranchesReady, RelatedReady};
ghost use Rattle.step_run.specs.Conditions.{GroupReady, InnerReady, LevelsReady, LimitReady, ReadyFrom, StepReadyFrom};

use apply_ast::{Name, Pipe, PipeList, Step, TopStep};
use apply_meaning::{Row, data_is_loaded};
use edm_model::{NavId, TypeId};
use par_stages::Gate;
use row_values::RowList;
use std::thread::Threads;
use step_run::{Context, Level};

/// The next transformation of a pipeline may be run.
pub(crate) fn step_ready<R: Threads + Sync, G: Gate>(
    context: &Context<'_, R, G>,
    root: &Option<TypeId>,
    steps: &[Step],
    i: usize,
    step: &Step,
    rows: &Vec<Row>,
)
    requires within { i < length steps.now }
    requires step { step.now ≡ get_or steps.now i step.now }
    requires ready { ReadyFrom context.now root.now (pipe (map step_of (drop i steps.now))) rows.now.items }
    ensures { StepReadyFrom context.now root.now (step_of step.now) rows.now.items }
{}

/// The inner pipeline of a grouping may be run on the groups of one level.
pub(crate) fn level_ready<R: Threads + Sync, G: Gate>(
    context: &Context<'_, R, G>,
    root: &Option<TypeId>,
    pipe: &Pipe,
    levels: &[Level<'_>],
    i: usize,
    level: &Level<'_>,
    rows: &RowList<'_>,
)
    requires within { i < length levels.now }
    requires level { level.now ≡ get_or levels.now i level.now }
    requires ready { LevelsReady context.now root.now levels.now (pipe_of pipe.now) rows.now }
    ensures { GroupReady context.now root.now level.now (pipe_of pipe.now) rows.now }
{}

/// The inner pipeline of a grouping may be run on some of the instances.
pub(crate) fn group_ready<R: Threads + Sync, G: Gate>(
    context: &Context<'_, R, G>,
    root: &Option<TypeId>,
    pipe: &Pipe,
    level: &Level<'_>,
    rows: &RowList<'_>,
    places: &[usize],
)
    requires ready { GroupReady context.now root.now level.now (pipe_of pipe.now) rows.now }
    ensures { ReadyFrom context.now root.now (pipe_of pipe.now) (at_places rows.now places.now) }
{}

/// The rows have values that a selection can be made by.
pub(crate) fn selection_ready<R: Threads + Sync, G: Gate>(
    context: &Context<'_, R, G>,
    root: &Option<TypeId>,
    top: &TopStep,
    rows: &Vec<Row>,
)
    requires { StepReadyFrom context.now root.now (tree.Step.TopBy (top_of top.now)) rows.now.items }
    ensures of { IsTrue (all_of context.now.world rows.now.items) }
    ensures limit { let t = top_of top.now in LimitReady t.limit (values context.now.world t.expr rows.now.items) }
{
    data_is_loaded(context.store());
}

/// Each branch of a concatenation may be run on the rows.
pub(crate) fn branches_ready<R: Threads + Sync, G: Gate>(
    context: &Context<'_, R, G>,
    root: &Option<TypeId>,
    branches: &PipeList,
    rows: &[Row],
)
    requires { StepReadyFrom context.now root.now (tree.Step.Concat (pipes_of branches.now)) rows.now }
    ensures { BranchesReady context.now root.now (map pipe_of (pipes_in branches.now)) rows.now }
{}

/// The next branch may be run on the rows.
pub(crate) fn branch_ready<R: Threads + Sync, G: Gate>(
    context: &Context<'_, R, G>,
    root: &Option<TypeId>,
    branches: &[Pipe],
    k: usize,
    branch: &Pipe,
    rows: &[Row],
)
    requires within { k < length branches.now }
    requires branch { branch.now ≡ get_or branches.now k branch.now }
    requires ready { BranchesReady context.now root.now (map pipe_of branches.now) rows.now }
    ensures { ReadyFrom context.now root.now (pipe_of branch.now) rows.now }
{}

/// The inner pipeline of a join may be run on the rows related to each row.
pub(crate) fn related_ready<R: Threads + Sync, G: Gate>(
    context: &Context<'_, R, G>,
    root: &Option<TypeId>,
    outer: bool,
    nav: &Name,
    alias: &Name,
    inner: &Option<Pipe>,
    rows: &[Row],
    found: NavId,
)
    requires ready { StepReadyFrom context.now root.now (tree.Step.Join outer nav.now alias.now (inner_of (option_map pipe_of inner.now))) rows.now }
    requires value { (S : Shape) → root_type S ≡ root.now → typing.join_navigation context.now.world.model S nav.now ≡ navigation_on context.now.world.model found }
    ensures { RelatedReady context.now found (inner_of (option_map pipe_of inner.now)) rows.now }
{
    data_is_loaded(context.store());
}

/// The inner pipeline of a join may be run on the rows related to the next row.
pub(crate) fn inner_ready<R: Threads + Sync, G: Gate>(
    context: &Context<'_, R, G>,
    nav: NavId,
    target: TypeId,
    inner: &Option<Pipe>,
    rows: &[Row],
    i: usize,
    row: &Row,
    related: &Vec<Row>,
)
    requires within { i < length rows.now }
    requires row { row.now ≡ get_or rows.now i row.now }
    requires ready { RelatedReady context.now nav (inner_of (option_map pipe_of inner.now)) rows.now }
    requires target { option_map (λ v. v.target) (navigation_on context.now.world.model nav) ≡ Some target }
    requires related { (v : Navigation) → navigation_on context.now.world.model nav ≡ Some v → related.now.items ≡ meaning.related_rows context.now.world v row.now }
    ensures { InnerReady context.now (Some target) (inner_of (option_map pipe_of inner.now)) related.now.items }
{}
