//! What is typed inside a typed pipeline, as the walk over its places asks. The functions do nothing: each is a law.
ghost use Rattle.std.specs.Prelude.{◌≡◌, ◌<◌, ◌+◌, ◌-◌, IfSome, IsTrue, Some, drop, get_or, is_some, length, map, option_map, take};
ghost use Rattle.edm_values.specs.Lists.{all_some};
ghost use Rattle.apply_ast.specs.Trees.{pipe, Step as tree, Key as key};
ghost use Rattle.apply_ast.specs.declared.steps.JoinStep.{out-JoinStep};
ghost use Rattle.apply_ast.specs.Views.{climb_of, hier_of, inner_of, join_of, key_of, keys_from, keys_of, pipe_of, pipes_from, pipes_of, step_of};
ghost use Rattle.context_typing.specs.Readings.{readings};
ghost use Rattle.context_typing.specs.Shapes as shapes;
ghost use Rattle.context_typing.specs.Steps.{nodes_at};
ghost use Rattle.context_typing.specs.Typing.{branch_shapes, inner_shape, join_navigation, key_typed, keys_typed, no_shape, step_shape, steps_shape};
ghost use Rattle.rewrite_rules.specs.Joins.{IsTypedFrom};
ghost use Rattle.rewrite_forms.specs.StepShapes.{shape_behind};

use apply_ast::{ClimbStep, HierName, JoinStep, KeyItem, KeyList, Path, Pipe, PipeList, Step};
use context_typing::{Customs, Shape};
use edm_model::{Model, TypeId};

/// Each step is typed on the shape behind those before it, and so are the steps from it on.
pub(crate) fn step_is_typed(
    m: &Model,
    c: &Customs,
    start: &Shape,
    whole: &Pipe,
    steps: &[Step],
    i: usize,
    step: &Step,
)
    requires within { i < length steps.now }
    requires step { step.now ≡ get_or steps.now i step.now }
    requires whole { pipe_of whole.now ≡ pipe (map step_of steps.now) }
    requires typed { IsTrue (is_some (steps_shape m.now (readings c.now) start.now (pipe_of whole.now))) }
    ensures step { IsTrue (is_some (step_shape m.now (readings c.now) (shape_behind m.now (readings c.now) start.now (map step_of (take i steps.now))) (step_of step.now))) }
    ensures onward { IsTypedFrom m.now (readings c.now) (shape_behind m.now (readings c.now) start.now (map step_of (take i steps.now))) (step_of step.now) (map step_of (take (length steps.now - (i + 1)) (drop (i + 1) steps.now))) }
{}

/// The keys of a grouping are typed, and so is the pipeline for each group.
pub(crate) fn grouping_is_typed(
    m: &Model,
    c: &Customs,
    start: &Shape,
    before: &[Step],
    step: &Step,
    keys: &KeyList,
    inner: &Option<Pipe>,
)
    requires grouping { step_of step.now ≡ tree.GroupBy (keys_of keys.now) (inner_of (option_map pipe_of inner.now)) }
    requires typed { IsTrue (is_some (step_shape m.now (readings c.now) (shape_behind m.now (readings c.now) start.now (map step_of before.now)) (step_of step.now))) }
    ensures keys { (S : shapes.Shape) × IsTrue (keys_typed m.now (readings c.now) S (keys_of keys.now)) }
    ensures inner { IsTrue (is_some (inner_shape m.now (readings c.now) (shape_behind m.now (readings c.now) start.now (map step_of before.now)) no_shape (inner_of (option_map pipe_of inner.now)))) }
{}

/// The pipeline for each group is typed on the shape before the grouping.
pub(crate) fn groups_are_typed(
    m: &Model,
    c: &Customs,
    start: &Shape,
    before: &[Step],
    inner: &Option<Pipe>,
    groups: &Pipe,
    shape: &Shape,
)
    requires groups { inner.now ≡ Some groups.now }
    requires shape { shape.now ≡ shape_behind m.now (readings c.now) start.now (map step_of before.now) }
    requires typed { IsTrue (is_some (inner_shape m.now (readings c.now) (shape_behind m.now (readings c.now) start.now (map step_of before.now)) no_shape (inner_of (option_map pipe_of inner.now)))) }
    ensures { IsTrue (is_some (steps_shape m.now (readings c.now) shape.now (pipe_of groups.now))) }
{}

/// Each key is typed.
pub(crate) fn key_is_typed(
    m: &Model,
    c: &Customs,
    whole: &KeyList,
    keys: &[KeyItem],
    i: usize,
    key: &KeyItem,
)
    requires within { i < length keys.now }
    requires key { key.now ≡ get_or keys.now i key.now }
    requires whole { keys_of whole.now ≡ keys_from (map key_of keys.now) }
    requires typed { (S : shapes.Shape) × IsTrue (keys_typed m.now (readings c.now) S (keys_of whole.now)) }
    ensures { (S : shapes.Shape) × IsTrue (key_typed m.now (readings c.now) S (key_of key.now)) }
{}

/// The pipeline that chooses the nodes of a recursive rollup is typed on the nodes.
pub(crate) fn nodes_are_typed(
    m: &Model,
    c: &Customs,
    hier: &HierName,
    path: &Path,
    inner: &Option<Pipe>,
    nodes: &Pipe,
    of: &Option<TypeId>,
)
    requires nodes { inner.now ≡ Some nodes.now }
    requires of { of.now ≡ option_map (λ x. x.0) (nodes_at m.now (hier_of hier.now)) }
    requires typed { (S : shapes.Shape) × IsTrue (key_typed m.now (readings c.now) S (key.Recursive (hier_of hier.now) path.now (inner_of (option_map pipe_of inner.now)))) }
    ensures { IfSome of.now (λ t. IsTrue (is_some (steps_shape m.now (readings c.now) (shapes.set_shape t) (pipe_of nodes.now)))) }
{}

/// The branches of a concatenation are typed on the shape before it.
pub(crate) fn branches_are_typed(
    m: &Model,
    c: &Customs,
    start: &Shape,
    before: &[Step],
    branches: &PipeList,
    shape: &Shape,
)
    requires shape { shape.now ≡ shape_behind m.now (readings c.now) start.now (map step_of before.now) }
    requires typed { IsTrue (is_some (step_shape m.now (readings c.now) (shape_behind m.now (readings c.now) start.now (map step_of before.now)) (tree.Concat (pipes_of branches.now)))) }
    ensures { IsTrue (is_some (all_some (branch_shapes m.now (readings c.now) shape.now (pipes_of branches.now)))) }
{}

/// Each branch is typed.
pub(crate) fn branch_is_typed(
    m: &Model,
    c: &Customs,
    shape: &Shape,
    whole: &PipeList,
    branches: &[Pipe],
    i: usize,
    branch: &Pipe,
)
    requires within { i < length branches.now }
    requires branch { branch.now ≡ get_or branches.now i branch.now }
    requires whole { pipes_of whole.now ≡ pipes_from (map pipe_of branches.now) }
    requires typed { IsTrue (is_some (all_some (branch_shapes m.now (readings c.now) shape.now (pipes_of whole.now)))) }
    ensures { IsTrue (is_some (steps_shape m.now (readings c.now) shape.now (pipe_of branch.now))) }
{}

/// The pipeline of a join is typed on what is related.
pub(crate) fn related_is_typed(
    m: &Model,
    c: &Customs,
    start: &Shape,
    before: &[Step],
    join: &JoinStep,
    related: &Pipe,
    shape: &Shape,
    of: &Option<TypeId>,
)
    requires related { (out-JoinStep join.now).inner ≡ Some related.now }
    requires shape { shape.now ≡ shape_behind m.now (readings c.now) start.now (map step_of before.now) }
    requires of { of.now ≡ option_map (λ v. v.target) (join_navigation m.now shape.now (out-JoinStep join.now).nav) }
    requires typed { IsTrue (is_some (step_shape m.now (readings c.now) (shape_behind m.now (readings c.now) start.now (map step_of before.now)) (join_of join.now))) }
    ensures { IfSome of.now (λ t. IsTrue (is_some (steps_shape m.now (readings c.now) (shapes.set_shape t) (pipe_of related.now)))) }
{}

/// The pipeline that chooses the start nodes of a climb is typed on the shape before it.
pub(crate) fn starts_are_typed(
    m: &Model,
    c: &Customs,
    start: &Shape,
    before: &[Step],
    climb: &ClimbStep,
    shape: &Shape,
)
    requires shape { shape.now ≡ shape_behind m.now (readings c.now) start.now (map step_of before.now) }
    requires typed { IsTrue (is_some (step_shape m.now (readings c.now) (shape_behind m.now (readings c.now) start.now (map step_of before.now)) (climb_of climb.now))) }
    ensures { IsTrue (is_some (steps_shape m.now (readings c.now) shape.now (pipe_of climb.now.inner))) }
{}
