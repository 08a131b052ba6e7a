//! Copies of trees.
ghost use Rattle.std.specs.Prelude.{◌≡◌, IfOk, map, option_map};
ghost use Rattle.apply_ast.specs.Views.{expr_of, named_of, item_of, agg_of, top_of, traverse_of, key_of, step_of, climb_of, join_of, keys_of, pipe_of, pipes_of};

use crate::expressions::Expr;
use crate::items::{
    AggItem, AggList, HierName, Limit, Named, NamedList, Number, OrderItem, OrderList, TopStep,
    TraverseStep,
};
use crate::names::{Held, Name, Path, PathList};
use crate::steps::{ClimbStep, JoinStep, KeyItem, KeyList, Pipe, PipeList, Request, Step};
use std::alloc::{AllocError, Global};
use std::sync::ArcSlice;

impl Name {
    /// The same name. No memory is taken: the copy shares the text. An error where the text is shared as often as can be
    /// counted.
    pub fn copy(&self, _alloc: Global) -> Result<Name, AllocError>
        ensures value { IfOk result (λ n. n ≡ self.now) }
    {
        Ok(Name {
            text: self.text.clone()?,
        })
    }
}

impl Path {
    /// The same path. The first copy takes memory for a list of names that its own copies share: a copy of a copied path
    /// takes none.
    pub fn copy(&self, alloc: Global) -> Result<Path, AllocError>
        ensures value { IfOk result (λ p. p ≡ self.now) }
    {
        match &self.held {
            Held::Own(names) => Ok(Path {
                held: Held::Shared(ArcSlice::from_vec(copy_names(alloc, names.as_slice())?)?),
            }),
            Held::Shared(names) => Ok(Path {
                held: Held::Shared(names.clone()?),
            }),
        }
    }
}

/// The same names.
fn copy_names(alloc: Global, names: &[Name]) -> Result<Vec<Name>, AllocError>
    ensures { IfOk result (λ l. l.items ≡ names.now) }
{
    let mut copies = Vec::with_capacity(alloc, names.len())?;
    for name in names {
        copies.push(name.copy(alloc)?)?;
    }
    Ok(copies)
}

impl PathList {
    /// The same paths.
    pub fn copy(&self, alloc: Global) -> Result<PathList, AllocError>
        ensures value { IfOk result (λ l. l ≡ self.now) }
    {
        let mut paths = Vec::new(alloc);
        for path in self.as_slice() {
            paths.push(path.copy(alloc)?)?;
        }
        Ok(PathList::new(paths))
    }
}

impl Expr {
    /// The same expression.
    pub fn copy(&self, alloc: Global) -> Result<Expr, AllocError>
        ensures value { IfOk result (λ e. expr_of e ≡ expr_of self.now) }
    {
        match self {
            Expr::Null => Ok(Expr::Null),
            Expr::Bool(b) => Ok(Expr::Bool(*b)),
            Expr::Int(n) => Ok(Expr::Int(*n)),
            Expr::Dec(d) => Ok(Expr::Dec(*d)),
            Expr::Text(t) => Ok(Expr::Text(t.copy(alloc)?)),
            Expr::Day(d) => Ok(Expr::Day(*d)),
            Expr::Path(p) => Ok(Expr::Path(p.copy(alloc)?)),
            Expr::Unary(op, a) => Ok(Expr::Unary(*op, Box::new(alloc, a.copy(alloc)?)?)),
            Expr::Binary(op, a, b) => {
                let a = Box::new(alloc, a.copy(alloc)?)?;
                Ok(Expr::Binary(*op, a, Box::new(alloc, b.copy(alloc)?)?))
            }
            Expr::Call1(f, a) => Ok(Expr::Call1(*f, Box::new(alloc, a.copy(alloc)?)?)),
            Expr::Call2(f, a, b) => {
                let a = Box::new(alloc, a.copy(alloc)?)?;
                Ok(Expr::Call2(*f, a, Box::new(alloc, b.copy(alloc)?)?))
            }
        }
    }
}

impl Named {
    /// The same item.
    pub fn copy(&self, alloc: Global) -> Result<Named, AllocError>
        ensures value { IfOk result (λ x. named_of x ≡ named_of self.now) }
    {
        Ok(Named {
            expr: self.expr.copy(alloc)?,
            name: self.name.copy(alloc)?,
        })
    }
}

impl NamedList {
    /// The same items.
    pub fn copy(&self, alloc: Global) -> Result<NamedList, AllocError>
        ensures value { IfOk result (λ l. map named_of l ≡ map named_of self.now) }
    {
        let mut items = Vec::new(alloc);
        for item in self.as_slice() {
            items.push(item.copy(alloc)?)?;
        }
        Ok(NamedList::new(items))
    }
}

impl OrderItem {
    /// The same item.
    pub fn copy(&self, alloc: Global) -> Result<OrderItem, AllocError>
        ensures value { IfOk result (λ x. item_of x ≡ item_of self.now) }
    {
        Ok(OrderItem {
            expr: self.expr.copy(alloc)?,
            desc: self.desc,
        })
    }
}

impl OrderList {
    /// The same items.
    pub fn copy(&self, alloc: Global) -> Result<OrderList, AllocError>
        ensures value { IfOk result (λ l. map item_of l ≡ map item_of self.now) }
    {
        let mut items = Vec::new(alloc);
        for item in self.as_slice() {
            items.push(item.copy(alloc)?)?;
        }
        Ok(OrderList::new(items))
    }
}

impl AggItem {
    /// The same item.
    pub fn copy(&self, alloc: Global) -> Result<AggItem, AllocError>
        ensures value { IfOk result (λ x. agg_of x ≡ agg_of self.now) }
    {
        match self {
            AggItem::Count(name) => Ok(AggItem::Count(name.copy(alloc)?)),
            AggItem::Standard(e, method, name) => {
                let e = e.copy(alloc)?;
                Ok(AggItem::Standard(e, *method, name.copy(alloc)?))
            }
            AggItem::Custom(custom, name) => {
                let custom = custom.copy(alloc)?;
                Ok(AggItem::Custom(custom, name.copy(alloc)?))
            }
        }
    }
}

impl AggList {
    /// The same items.
    pub fn copy(&self, alloc: Global) -> Result<AggList, AllocError>
        ensures value { IfOk result (λ l. map agg_of l ≡ map agg_of self.now) }
    {
        let mut items = Vec::new(alloc);
        for item in self.as_slice() {
            items.push(item.copy(alloc)?)?;
        }
        Ok(AggList::new(items))
    }
}

impl HierName {
    /// The same hierarchy.
    pub fn copy(&self, alloc: Global) -> Result<HierName, AllocError>
        ensures value { IfOk result (λ h. h ≡ self.now) }
    {
        Ok(HierName {
            set: self.set.copy(alloc)?,
            qualifier: self.qualifier.copy(alloc)?,
        })
    }
}

impl Number {
    /// The same number. No memory is taken.
    pub fn copy(&self, _alloc: Global) -> Result<Number, AllocError>
        ensures value { result ≡ Ok self.now }
    {
        match self {
            Number::Int(n) => Ok(Number::Int(*n)),
            Number::Dec(d) => Ok(Number::Dec(*d)),
        }
    }
}

impl Limit {
    /// The same limit. No memory is taken.
    pub fn copy(&self, alloc: Global) -> Result<Limit, AllocError>
        ensures value { result ≡ Ok self.now }
    {
        match self {
            Limit::Count(n) => Ok(Limit::Count(*n)),
            Limit::Sum(x) => Ok(Limit::Sum(x.copy(alloc)?)),
            Limit::Percent(p) => Ok(Limit::Percent(*p)),
        }
    }
}

impl TopStep {
    /// The same selection.
    pub fn copy(&self, alloc: Global) -> Result<TopStep, AllocError>
        ensures value { IfOk result (λ t. top_of t ≡ top_of self.now) }
    {
        Ok(TopStep {
            bottom: self.bottom,
            limit: self.limit.copy(alloc)?,
            expr: self.expr.copy(alloc)?,
        })
    }
}

impl TraverseStep {
    /// The same walk.
    pub fn copy(&self, alloc: Global) -> Result<TraverseStep, AllocError>
        ensures value { IfOk result (λ t. traverse_of t ≡ traverse_of self.now) }
    {
        Ok(TraverseStep {
            hier: self.hier.copy(alloc)?,
            path: self.path.copy(alloc)?,
            post: self.post,
            items: self.items.copy(alloc)?,
        })
    }
}

#[cycle(copy)]
fn copy_inner(alloc: Global, inner: &Option<Pipe>) -> Result<Option<Pipe>, AllocError>
    ensures { IfOk result (λ o. option_map pipe_of o ≡ option_map pipe_of inner.now) }
{
    match inner {
        None => Ok(None),
        Some(p) => Ok(Some(p.copy(alloc)?)),
    }
}

impl JoinStep {
    /// The same join.
    #[cycle(copy)]
    pub fn copy(&self, alloc: Global) -> Result<JoinStep, AllocError>
        ensures value { IfOk result (λ j. join_of j ≡ join_of self.now) }
    {
        Ok(JoinStep {
            outer: self.outer,
            nav: self.nav.copy(alloc)?,
            alias: self.alias.copy(alloc)?,
            inner: copy_inner(alloc, &self.inner)?,
        })
    }
}

impl ClimbStep {
    /// The same transformation.
    #[cycle(copy)]
    pub fn copy(&self, alloc: Global) -> Result<ClimbStep, AllocError>
        ensures value { IfOk result (λ c. climb_of c ≡ climb_of self.now) }
    {
        Ok(ClimbStep {
            up: self.up,
            hier: self.hier.copy(alloc)?,
            path: self.path.copy(alloc)?,
            inner: self.inner.copy(alloc)?,
            distance: self.distance,
            keep: self.keep,
        })
    }
}

impl KeyItem {
    /// The same key.
    #[cycle(copy)]
    pub fn copy(&self, alloc: Global) -> Result<KeyItem, AllocError>
        ensures value { IfOk result (λ k. key_of k ≡ key_of self.now) }
    {
        match self {
            KeyItem::Plain(p) => Ok(KeyItem::Plain(p.copy(alloc)?)),
            KeyItem::Rollup(all, paths) => Ok(KeyItem::Rollup(*all, paths.copy(alloc)?)),
            KeyItem::Recursive(hier, path, inner) => {
                let hier = hier.copy(alloc)?;
                let path = path.copy(alloc)?;
                Ok(KeyItem::Recursive(hier, path, copy_inner(alloc, inner)?))
            }
        }
    }
}

impl KeyList {
    /// The same keys.
    #[cycle(copy)]
    pub fn copy(&self, alloc: Global) -> Result<KeyList, AllocError>
        ensures value { IfOk result (λ l. keys_of l ≡ keys_of self.now) }
    {
        let mut keys = Vec::new(alloc);
        for key in self.as_slice() {
            keys.push(key.copy(alloc)?)?;
        }
        Ok(KeyList::new(keys))
    }
}

impl Step {
    /// The same transformation.
    #[cycle(copy)]
    pub fn copy(&self, alloc: Global) -> Result<Step, AllocError>
        ensures value { IfOk result (λ s. step_of s ≡ step_of self.now) }
    {
        match self {
            Step::Identity => Ok(Step::Identity),
            Step::Filter(e) => Ok(Step::Filter(e.copy(alloc)?)),
            Step::Compute(items) => Ok(Step::Compute(items.copy(alloc)?)),
            Step::OrderBy(items) => Ok(Step::OrderBy(items.copy(alloc)?)),
            Step::Skip(n) => Ok(Step::Skip(*n)),
            Step::Top(n) => Ok(Step::Top(*n)),
            Step::Aggregate(items) => Ok(Step::Aggregate(items.copy(alloc)?)),
            Step::GroupBy(keys, inner) => {
                let keys = keys.copy(alloc)?;
                Ok(Step::GroupBy(keys, copy_inner(alloc, inner)?))
            }
            Step::Concat(branches) => Ok(Step::Concat(branches.copy(alloc)?)),
            Step::Join(join) => Ok(Step::Join(join.copy(alloc)?)),
            Step::TopBy(top) => Ok(Step::TopBy(top.copy(alloc)?)),
            Step::Climb(climb) => Ok(Step::Climb(climb.copy(alloc)?)),
            Step::Traverse(walk) => Ok(Step::Traverse(walk.copy(alloc)?)),
        }
    }
}

impl PipeList {
    /// The same pipelines.
    #[cycle(copy)]
    pub fn copy(&self, alloc: Global) -> Result<PipeList, AllocError>
        ensures value { IfOk result (λ l. pipes_of l ≡ pipes_of self.now) }
    {
        let mut pipes = Vec::new(alloc);
        for pipe in self.as_slice() {
            pipes.push(pipe.copy(alloc)?)?;
        }
        Ok(PipeList::new(pipes))
    }
}

impl Pipe {
    /// The same pipeline.
    #[cycle(copy)]
    pub fn copy(&self, alloc: Global) -> Result<Pipe, AllocError>
        ensures value { IfOk result (λ p. pipe_of p ≡ pipe_of self.now) }
    {
        let mut steps = Vec::new(alloc);
        for step in self.steps() {
            steps.push(step.copy(alloc)?)?;
        }
        Ok(Pipe::new(steps))
    }
}

impl Request {
    /// The same request.
    pub fn copy(&self, alloc: Global) -> Result<Request, AllocError>
        ensures explain { IfOk result (λ r. r.explain ≡ self.now.explain) }
        ensures set { IfOk result (λ r. r.set ≡ self.now.set) }
        ensures pipe { IfOk result (λ r. pipe_of r.pipe ≡ pipe_of self.now.pipe) }
    {
        Ok(Request {
            explain: self.explain,
            set: self.set.copy(alloc)?,
            pipe: self.pipe.copy(alloc)?,
        })
    }
}
