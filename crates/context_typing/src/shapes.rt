//! Shapes: what all instances of a list have in common (Data Aggregation 4.0, section 3.1).
ghost use Rattle.std.specs.Prelude.{◌≡◌, IfOk};

use crate::columns::ColumnList;
use apply_ast::Path;
use edm_model::TypeId;
use std::alloc::{AllocError, Global};
use std::marker::Model;

/// The entity at the empty prefix: its type, and whether some instances lack it.
#[derive(Clone, Copy, Debug, Drop)]
pub struct RootShape {
    pub of: TypeId,
    pub absent: bool,
}

impl Model for RootShape {
    ghost use Rattle.context_typing.specs.Shapes as seen;

    ghost Value = { seen.RootShape };

    ghost view = { λ r. record { of = r.of; absent = r.absent } };

    ghost inverse = { λ r. record { of = r.of; absent = r.absent } };
}

/// A prefix, with the type of the entities there.
#[derive(Debug, Drop)]
pub struct PrefixShape {
    pub path: Path,
    pub of: TypeId,
    pub absent: bool,
}

impl Model for PrefixShape {
    ghost use Rattle.context_typing.specs.Shapes as seen;

    ghost Value = { seen.PrefixShape };

    ghost view = { λ x. record { path = x.path; of = x.of; absent = x.absent } };
}

/// The prefixes of a shape, without the empty one.
#[derive(Debug, Drop)]
pub struct PrefixList {
    all: Vec<PrefixShape>,
}

impl Model for PrefixList {
    ghost use Rattle.std.specs.Prelude.{List};
    ghost use Rattle.context_typing.specs.Shapes as seen;

    ghost Value = { List seen.PrefixShape };

    ghost view = { λ l. l.all.items };
}

impl PrefixList {
    /// The list of these prefixes.
    pub fn new(prefixes: Vec<PrefixShape>) -> PrefixList
        ensures value { result ≡ prefixes.items }
    {
        PrefixList { all: prefixes }
    }

    /// The prefixes in their order.
    pub fn as_slice(&self) -> &[PrefixShape]
        ensures value { result.now ≡ self.now }
    {
        &self.all
    }

    /// The prefixes that the list was made of.
    pub fn into_vec(self) -> Vec<PrefixShape>
        ensures value { result.items ≡ self }
    {
        self.all
    }
}

/// What all instances of a list have in common.
#[derive(Debug, Drop)]
pub struct Shape {
    pub root: Option<RootShape>,
    pub prefixes: PrefixList,
    pub columns: ColumnList,
}

impl Model for Shape {
    ghost use Rattle.context_typing.specs.Shapes as seen;

    ghost Value = { seen.Shape };

    ghost view = { λ s. record { root = s.root; prefixes = s.prefixes; columns = s.columns } };
}

impl PrefixShape {
    /// The same prefix.
    pub fn copy(&self, alloc: Global) -> Result<PrefixShape, AllocError>
        ensures value { IfOk result (λ x. x ≡ self.now) }
    {
        Ok(PrefixShape {
            path: self.path.copy(alloc)?,
            of: self.of,
            absent: self.absent,
        })
    }
}

impl PrefixList {
    /// The same prefixes.
    pub fn copy(&self, alloc: Global) -> Result<PrefixList, AllocError>
        ensures value { IfOk result (λ l. l ≡ self.now) }
    {
        let mut prefixes = Vec::new(alloc);
        for prefix in self.as_slice() {
            prefixes.push(prefix.copy(alloc)?)?;
        }
        Ok(PrefixList::new(prefixes))
    }
}

impl Shape {
    /// The same shape.
    pub fn copy(&self, alloc: Global) -> Result<Shape, AllocError>
        ensures value { IfOk result (λ s. s ≡ self.now) }
    {
        Ok(Shape {
            root: self.root,
            prefixes: self.prefixes.copy(alloc)?,
            columns: self.columns.copy(alloc)?,
        })
    }
}
