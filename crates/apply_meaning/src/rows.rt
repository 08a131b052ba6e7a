//! Rows: instances that the program holds.
ghost use Rattle.std.specs.Prelude.{◌≡◌, ◌+◌, ◌++◌, IsTrue, IfOk, Ok};
ghost use Rattle.apply_meaning.specs.Instances.{extended, root_of};
ghost use Rattle.apply_meaning.specs.RowViews.{IsRow, row_instance, with_root, prefixes_differ, columns_differ, have_paths};

use crate::Steps;
use apply_ast::Path;
use edm_data::EntityRef;
use edm_values::Value;
use std::alloc::{AllocError, Global};
use std::marker::Model;
use std::sync::ledger::Ledger;

/// An instance: an entity or none at each of its prefixes, and a value at each of its columns (Data Aggregation 4.0,
/// section 3.1). The entity at the empty prefix stands apart.
#[derive(Debug, Drop)]
pub struct Row {
    root: Option<EntityRef>,
    prefixes: Vec<(Path, Option<EntityRef>)>,
    columns: Vec<(Path, Value)>,
}

impl Model for Row {
    ghost use Rattle.apply_meaning.specs.Instances.{Instance};
    ghost use Rattle.apply_meaning.specs.RowViews.{IsRow, row_instance};

    ghost Value = { Instance };

    ghost view = { λ r. row_instance r.root r.prefixes.items r.columns.items };

    ghost invariant = { λ r. IsRow r.prefixes.items r.columns.items };
}

impl Row {
    /// A row of these parts. No memory is taken.
    pub fn make<L: Ledger>(
        _alloc: Global,
        prefixes: Vec<(Path, Option<EntityRef>)>,
        root: Option<EntityRef>,
        columns: Vec<(Path, Value)>,
        steps: &mut Steps<L>,
    ) -> Result<Row, AllocError>
        requires { IsRow prefixes.items columns.items }
        ensures row { result ≡ Ok (row_instance root prefixes.items columns.items) }
        ensures steps { steps.new ≡ steps.old + 1 }
    {
        steps.tick();
        Ok(Row {
            root,
            prefixes,
            columns,
        })
    }

    /// The row with these columns behind its own.
    pub fn extend<L: Ledger>(
        self,
        columns: Vec<(Path, Value)>,
        steps: &mut Steps<L>,
    ) -> Result<Row, AllocError>
        requires { IsTrue (columns_differ (self.columns ++ columns.items)) }
        ensures row { IfOk result (λ r. r ≡ extended self columns.items) }
        ensures steps { steps.new ≡ steps.old + 1 }
    {
        steps.tick();
        let Row {
            root,
            prefixes,
            columns: own,
        } = self;
        Ok(Row {
            root,
            prefixes,
            columns: joined(own, columns)?,
        })
    }

    /// The same row.
    pub fn copy<L: Ledger>(&self, alloc: Global, steps: &mut Steps<L>) -> Result<Row, AllocError>
        ensures row { IfOk result (λ r. r ≡ self.now) }
        ensures steps { steps.new ≡ steps.old + 1 }
    {
        steps.tick();
        Ok(Row {
            root: self.root,
            prefixes: copy_prefixes(alloc, self.prefixes.as_slice())?,
            columns: copy_columns(alloc, self.columns.as_slice())?,
        })
    }

    /// The entity at the empty prefix.
    pub fn root(&self) -> Option<EntityRef>
        ensures value { result ≡ root_of self.now }
    {
        self.root
    }

    /// The entities at the other prefixes.
    pub fn prefixes(&self) -> &[(Path, Option<EntityRef>)]
        ensures prefixes { self.now.prefixes ≡ with_root (root_of self.now) result.now }
        ensures paths { IsTrue (have_paths result.now) }
        ensures differ { IsTrue (prefixes_differ result.now) }
    {
        self.prefixes.as_slice()
    }

    /// The columns in their order.
    pub fn columns(&self) -> &[(Path, Value)]
        ensures columns { result.now ≡ self.now.columns }
        ensures differ { IsTrue (columns_differ result.now) }
    {
        self.columns.as_slice()
    }
}

/// The first columns and then the others.
fn joined(
    first: Vec<(Path, Value)>,
    others: Vec<(Path, Value)>,
) -> Result<Vec<(Path, Value)>, AllocError>
    ensures { IfOk result (λ all. all.items ≡ first.items ++ others.items) }
{
    let mut all = first;
    let mut others = others;
    all.append(&mut others)?;
    Ok(all)
}

/// Copies of prefixes: paths share their names.
pub fn copy_prefixes(
    alloc: Global,
    prefixes: &[(Path, Option<EntityRef>)],
) -> Result<Vec<(Path, Option<EntityRef>)>, AllocError>
    ensures value { IfOk result (λ copies. copies.items ≡ prefixes.now) }
{
    let mut copies = Vec::with_capacity(alloc, prefixes.len())?;
    for prefix in prefixes {
        copies.push((prefix.0.copy(alloc)?, prefix.1))?;
    }
    Ok(copies)
}

/// Copies of columns: paths share their names.
pub fn copy_columns(
    alloc: Global,
    columns: &[(Path, Value)],
) -> Result<Vec<(Path, Value)>, AllocError>
    ensures value { IfOk result (λ copies. copies.items ≡ columns.now) }
{
    let mut copies = Vec::with_capacity(alloc, columns.len())?;
    for column in columns {
        copies.push((column.0.copy(alloc)?, column.1.seen().own(alloc)?))?;
    }
    Ok(copies)
}
