//! Pipelines, their steps, and what holds a pipeline (Data Aggregation 4.0, section 3).
ghost use Rattle.std.specs.Prelude.{◌≡◌, ◌<◌, length, map};
ghost use Rattle.apply_ast.specs.Trees.{pipe};
ghost use Rattle.apply_ast.specs.Views.{step_of, pipe_of, steps_in, keys_in, pipes_in};

use crate::expressions::Expr;
use crate::items::{AggList, HierName, NamedList, OrderList, TopStep, TraverseStep};
use crate::names::{Name, Path, PathList};
use crate::non_empty::NonEmpty;

/// A join with the entities that a collection-valued navigation property leads to. With `outer`, an instance without
/// any is kept.
#[derive(Drop)]
#[cycle(trees)]
pub struct JoinStep {
    pub outer: bool,
    pub nav: Name,
    pub alias: Name,
    pub inner: Option<Pipe>,
}

/// The instances at the ancestors of the nodes that a pipeline gives, or at their descendants where `up` is false; at most
/// `distance` steps away, and with the start nodes where `keep` is true.
#[derive(Drop)]
#[cycle(trees)]
pub struct ClimbStep {
    pub up: bool,
    pub hier: HierName,
    pub path: Path,
    pub inner: Pipe,
    pub distance: Option<u64>,
    pub keep: bool,
}

/// A key of a grouping: a path, the levels of a rollup (with the grand total last where the flag is true), or a recursive
/// rollup.
#[derive(Drop)]
#[cycle(trees)]
pub enum KeyItem {
    Plain(Path),
    Rollup(bool, PathList),
    Recursive(HierName, Path, Option<Pipe>),
}

/// The keys of a grouping.
#[derive(Drop)]
#[cycle(trees)]
pub struct KeyList {
    pub(crate) all: Vec<KeyItem>,
}

impl KeyList {
    /// The list of these.
    pub fn new(items: Vec<KeyItem>) -> KeyList
        ensures value { keys_in result ≡ items.items }
    {
        KeyList { all: items }
    }

    /// The list's elements in their order.
    pub fn as_slice(&self) -> &[KeyItem]
        ensures value { result.now ≡ keys_in self.now }
    {
        &self.all
    }

    /// What the list was made of.
    pub fn into_vec(self) -> Vec<KeyItem>
        ensures value { result.items ≡ keys_in self }
    {
        self.all
    }
}

/// A transformation.
#[derive(Drop)]
#[cycle(trees)]
pub enum Step {
    Identity,
    Filter(Expr),
    Compute(NamedList),
    OrderBy(OrderList),
    Skip(u64),
    Top(u64),
    Aggregate(AggList),
    GroupBy(KeyList, Option<Pipe>),
    Concat(PipeList),
    Join(JoinStep),
    TopBy(TopStep),
    Climb(ClimbStep),
    Traverse(TraverseStep),
}

/// The branches of a concatenation.
#[derive(Drop)]
#[cycle(trees)]
pub struct PipeList {
    pub(crate) all: Vec<Pipe>,
}

impl PipeList {
    /// The list of these.
    pub fn new(items: Vec<Pipe>) -> PipeList
        ensures value { pipes_in result ≡ items.items }
    {
        PipeList { all: items }
    }

    /// The list's elements in their order.
    pub fn as_slice(&self) -> &[Pipe]
        ensures value { result.now ≡ pipes_in self.now }
    {
        &self.all
    }

    /// What the list was made of.
    pub fn into_vec(self) -> Vec<Pipe>
        ensures value { result.items ≡ pipes_in self }
    {
        self.all
    }
}

/// A pipeline of at least one step.
#[derive(Drop)]
#[cycle(trees)]
pub struct Pipe {
    pub(crate) steps: NonEmpty<Step>,
}

impl Pipe {
    /// The pipeline of these steps.
    pub fn new(steps: Vec<Step>) -> Pipe
        requires { 0 < length steps.items }
        ensures steps { steps_in result ≡ steps.items }
        ensures tree { pipe_of result ≡ pipe (map step_of steps.items) }
    {
        Pipe {
            steps: NonEmpty::new(steps),
        }
    }

    /// The steps in their order.
    pub fn steps(&self) -> &[Step]
        ensures steps { result.now ≡ steps_in self.now }
        ensures tree { pipe_of self.now ≡ pipe (map step_of result.now) }
        ensures some { 0 < length result.now }
    {
        self.steps.as_slice()
    }
}

/// A request: the entity set that it addresses and the pipeline for it. Where `explain` is true it asks for the plan and
/// not for the result.
#[derive(Drop)]
pub struct Request {
    pub explain: bool,
    pub set: Name,
    pub pipe: Pipe,
}
