//! What is typed inside a typed step, and what is known of it, as the walk over it asks. The functions do nothing: each is a law.
ghost use Rattle.std.specs.Prelude.{◌≡◌, ◌<◌, IfSome, IsTrue, Some, drop, get_or, is_some, length, map, option_map, slice_get};
ghost use Rattle.apply_ast.specs.Trees as tree;
ghost use Rattle.apply_ast.specs.declared.steps.JoinStep.{out-JoinStep};
ghost use Rattle.apply_ast.specs.Views.{climb_of, hier_of, inner_of, join_of, key_of, keys_in, keys_of, pipe_of, pipes_in, pipes_of, step_of};
ghost use Rattle.context_typing.specs.Readings.{readings};
ghost use Rattle.context_typing.specs.Shapes as shapes;
ghost use Rattle.context_typing.specs.ShapeTypes.{has_types};
ghost use Rattle.context_typing.specs.Steps.{nodes_at};
ghost use Rattle.context_typing.specs.Typing.{join_navigation, step_shape, steps_shape};
ghost use Rattle.optimiser.specs.HeldSegments as held;
ghost use Rattle.optimiser.specs.KnownSteps as facts;
ghost use Rattle.optimiser.specs.declared.known.Known.{out-Known};
ghost use Rattle.optimiser.specs.WalkForms as form;
ghost use Rattle.optimiser.specs.declared.held.Head.TheVariants as head;

use crate::known::Known;
use apply_ast::{ClimbStep, HierName, JoinStep, KeyItem, KeyList, Path, Pipe, PipeList, Step};
use context_typing::{Customs, Shape};
use edm_model::{Model, TypeId};

/// A step that is at its place is one of the pipeline's, and something is known of it.
pub(crate) fn place_is_there(
    m: &Model,
    c: &Customs,
    steps: &[Step],
    known: &[Known],
    at: usize,
    shape: &Shape,
)
    requires there { IsTrue (held.is_there m.now (readings c.now) (map step_of steps.now) known.now (head.Written at shape.now)) }
    ensures within { at < length steps.now }
    ensures known { at < length known.now }
    ensures there { IsTrue (held.is_there m.now (readings c.now) (map step_of steps.now) known.now (head.Written at shape.now)) }
{}

/// A step that is at its place is typed there, and what is known of it is so.
pub(crate) fn step_is_typed(
    m: &Model,
    c: &Customs,
    steps: &[Step],
    known: &[Known],
    at: usize,
    shape: &Shape,
    step: &Step,
    of: &Known,
)
    requires within { at < length steps.now }
    requires step { step.now ≡ get_or steps.now at step.now }
    requires among { at < length known.now }
    requires of { of.now ≡ get_or known.now at of.now }
    requires there { IsTrue (held.is_there m.now (readings c.now) (map step_of steps.now) known.now (head.Written at shape.now)) }
    ensures types { IsTrue (has_types m.now shape.now) }
    ensures typed { IsTrue (is_some (step_shape m.now (readings c.now) shape.now (step_of step.now))) }
    ensures known { IsTrue (facts.is_known m.now (readings c.now) shape.now (step_of step.now) of.now) }
{}

/// The first of the steps that are left is typed where all of them are.
pub(crate) fn next_is_typed(
    m: &Model,
    c: &Customs,
    steps: &[Step],
    i: usize,
    step: &Step,
    shape: &Shape,
)
    requires within { i < length steps.now }
    requires step { step.now ≡ get_or steps.now i step.now }
    requires typed { IsTrue (is_some (steps_shape m.now (readings c.now) shape.now (tree.pipe (map step_of (drop i steps.now))))) }
    ensures { IsTrue (is_some (step_shape m.now (readings c.now) shape.now (step_of step.now))) }
{}

/// What is known of the steps of a pipeline is so of all that are left.
pub(crate) fn all_are_known(
    m: &Model,
    c: &Customs,
    steps: &[Step],
    known: &[Known],
    start: &Shape,
    shape: &Shape,
)
    requires same { shape.now ≡ start.now }
    requires known { IsTrue (facts.are_known m.now (readings c.now) start.now (tree.pipe (map step_of steps.now)) known.now) }
    ensures { IsTrue (facts.are_known m.now (readings c.now) shape.now (tree.pipe (map step_of (drop 0 steps.now))) (drop 0 known.now)) }
{}

/// Something is known of each step.
pub(crate) fn one_is_known(
    m: &Model,
    c: &Customs,
    steps: &[Step],
    known: &[Known],
    start: &Shape,
    i: usize,
)
    requires within { i < length steps.now }
    requires known { IsTrue (facts.are_known m.now (readings c.now) start.now (tree.pipe (map step_of steps.now)) known.now) }
    ensures { i < length known.now }
{}

/// What is known of the first of the steps that are left is so.
pub(crate) fn next_is_known(
    m: &Model,
    c: &Customs,
    steps: &[Step],
    known: &[Known],
    i: usize,
    step: &Step,
    of: &Known,
    shape: &Shape,
)
    requires within { i < length steps.now }
    requires step { step.now ≡ get_or steps.now i step.now }
    requires among { i < length known.now }
    requires of { of.now ≡ get_or known.now i of.now }
    requires known { IsTrue (facts.are_known m.now (readings c.now) shape.now (tree.pipe (map step_of (drop i steps.now))) (drop i known.now)) }
    ensures known { IsTrue (facts.is_known m.now (readings c.now) shape.now (step_of step.now) of.now) }
    ensures place { slice_get known.now i ≡ Some of.now }
{}

/// The pipelines that choose the nodes of the keys of a grouping are typed, and so is the pipeline for each group.
pub(crate) fn grouping_is_typed(
    m: &Model,
    c: &Customs,
    shape: &Shape,
    step: &Step,
    keys: &KeyList,
    inner: &Option<Pipe>,
)
    requires grouping { step_of step.now ≡ tree.Step.GroupBy (keys_of keys.now) (inner_of (option_map pipe_of inner.now)) }
    requires typed { IsTrue (is_some (step_shape m.now (readings c.now) shape.now (step_of step.now))) }
    ensures keys { IsTrue (form.keys_inside_typed m.now (readings c.now) (map key_of (keys_in keys.now))) }
    ensures inner { IfSome inner.now (λ p. IsTrue (is_some (steps_shape m.now (readings c.now) shape.now (pipe_of p)))) }
{}

/// The branches of a concatenation are typed on the shape before it.
pub(crate) fn branches_are_typed(
    m: &Model,
    c: &Customs,
    shape: &Shape,
    step: &Step,
    branches: &PipeList,
)
    requires concat { step_of step.now ≡ tree.Step.Concat (pipes_of branches.now) }
    requires typed { IsTrue (is_some (step_shape m.now (readings c.now) shape.now (step_of step.now))) }
    ensures { IsTrue (form.branches_typed m.now (readings c.now) shape.now (map pipe_of (pipes_in branches.now))) }
{}

/// Each branch is typed.
pub(crate) fn branch_is_typed(
    m: &Model,
    c: &Customs,
    shape: &Shape,
    whole: &PipeList,
    branches: &[Pipe],
    i: usize,
    branch: &Pipe,
)
    requires within { i < length branches.now }
    requires branch { branch.now ≡ get_or branches.now i branch.now }
    requires whole { branches.now ≡ pipes_in whole.now }
    requires typed { IsTrue (form.branches_typed m.now (readings c.now) shape.now (map pipe_of (pipes_in whole.now))) }
    ensures { IsTrue (is_some (steps_shape m.now (readings c.now) shape.now (pipe_of branch.now))) }
{}

/// What is known of the branches of a concatenation is so of each of them.
pub(crate) fn branches_are_known(
    m: &Model,
    c: &Customs,
    shape: &Shape,
    step: &Step,
    branches: &PipeList,
    of: &Known,
)
    requires concat { step_of step.now ≡ tree.Step.Concat (pipes_of branches.now) }
    requires known { IsTrue (facts.is_known m.now (readings c.now) shape.now (step_of step.now) of.now) }
    ensures { IsTrue (facts.branches_known m.now (readings c.now) shape.now (pipes_of branches.now) (out-Known of.now).inside.items) }
{}

/// Something is known of each branch.
pub(crate) fn branch_is_among(
    m: &Model,
    c: &Customs,
    shape: &Shape,
    whole: &PipeList,
    branches: &[Pipe],
    inside: &[Vec<Known>],
    i: usize,
)
    requires within { i < length branches.now }
    requires whole { branches.now ≡ pipes_in whole.now }
    requires known { IsTrue (facts.branches_known m.now (readings c.now) shape.now (pipes_of whole.now) inside.now) }
    ensures { i < length inside.now }
{}

/// What is known of each branch is so.
pub(crate) fn branch_is_known(
    m: &Model,
    c: &Customs,
    shape: &Shape,
    whole: &PipeList,
    branches: &[Pipe],
    inside: &[Vec<Known>],
    i: usize,
    branch: &Pipe,
    of: &Vec<Known>,
)
    requires within { i < length branches.now }
    requires branch { branch.now ≡ get_or branches.now i branch.now }
    requires of { of.now ≡ get_or inside.now i of.now }
    requires whole { branches.now ≡ pipes_in whole.now }
    requires known { IsTrue (facts.branches_known m.now (readings c.now) shape.now (pipes_of whole.now) inside.now) }
    ensures { IsTrue (facts.are_known m.now (readings c.now) shape.now (pipe_of branch.now) of.now.items) }
{}

/// The pipeline that chooses the nodes of each key is typed.
pub(crate) fn key_is_typed(
    m: &Model,
    c: &Customs,
    whole: &KeyList,
    keys: &[KeyItem],
    i: usize,
    key: &KeyItem,
)
    requires within { i < length keys.now }
    requires key { key.now ≡ get_or keys.now i key.now }
    requires whole { keys.now ≡ keys_in whole.now }
    requires typed { IsTrue (form.keys_inside_typed m.now (readings c.now) (map key_of (keys_in whole.now))) }
    ensures { IsTrue (form.key_inside_typed m.now (readings c.now) (key_of key.now)) }
{}

/// The pipeline that chooses the nodes of a recursive rollup is typed on the nodes.
pub(crate) fn nodes_are_typed(
    m: &Model,
    c: &Customs,
    key: &KeyItem,
    hier: &HierName,
    path: &Path,
    inner: &Option<Pipe>,
    of: &Option<TypeId>,
)
    requires recursive { key_of key.now ≡ tree.Key.Recursive (hier_of hier.now) path.now (inner_of (option_map pipe_of inner.now)) }
    requires of { of.now ≡ option_map (λ x. x.0) (nodes_at m.now (hier_of hier.now)) }
    requires typed { IsTrue (form.key_inside_typed m.now (readings c.now) (key_of key.now)) }
    ensures { IfSome of.now (λ t. IfSome inner.now (λ p. IsTrue (is_some (steps_shape m.now (readings c.now) (shapes.set_shape t) (pipe_of p))))) }
{}

/// The pipeline of a join is typed on what is related.
pub(crate) fn related_is_typed(
    m: &Model,
    c: &Customs,
    shape: &Shape,
    join: &JoinStep,
    of: &Option<TypeId>,
)
    requires of { of.now ≡ option_map (λ v. v.target) (join_navigation m.now shape.now (out-JoinStep join.now).nav) }
    requires typed { IsTrue (is_some (step_shape m.now (readings c.now) shape.now (join_of join.now))) }
    ensures { IfSome of.now (λ t. IfSome (out-JoinStep join.now).inner (λ p. IsTrue (is_some (steps_shape m.now (readings c.now) (shapes.set_shape t) (pipe_of p))))) }
{}

/// The pipeline that chooses the start nodes of a climb is typed on the shape before it.
pub(crate) fn starts_are_typed(m: &Model, c: &Customs, shape: &Shape, climb: &ClimbStep)
    requires typed { IsTrue (is_some (step_shape m.now (readings c.now) shape.now (climb_of climb.now))) }
    ensures { IsTrue (is_some (steps_shape m.now (readings c.now) shape.now (pipe_of climb.now.inner))) }
{}
