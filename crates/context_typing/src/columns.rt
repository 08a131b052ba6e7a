//! Columns of shapes, and lists of them in which a column is found by its path.
ghost use Rattle.std.specs.Prelude.{◌≡◌, ◌++◌, ◌∷◌, [], map, true, IfOk, IsTrue};
ghost use Rattle.std.specs.List.{list_any};
ghost use Rattle.std.specs.Option.{option_copied};
ghost use Rattle.context_typing.specs.Paths as paths;
ghost use Rattle.context_typing.specs.Typing as spec;

use crate::orders;
use crate::paths::{is_prefix, same_path};
use apply_ast::{Name, Path};
use edm_values::EdmType;
use std::alloc::{AllocError, Global};
use std::marker::Model;

/// A column, with the type of its values: whether it stands for a property, whether some instances lack it, and
/// whether a value in it may be past its range.
#[derive(Debug, Drop)]
pub struct ColumnShape {
    pub path: Path,
    pub kind: EdmType,
    pub declared: bool,
    pub absent: bool,
    pub risky: bool,
}

impl Model for ColumnShape {
    ghost use Rattle.context_typing.specs.Shapes as seen;

    ghost Value = { seen.ColumnShape };

    ghost view = { λ c. record { path = c.path; kind = c.kind; declared = c.declared; absent = c.absent; risky = c.risky } };
}

impl ColumnShape {
    /// The same column.
    pub fn copy(&self, alloc: Global) -> Result<ColumnShape, AllocError>
        ensures value { IfOk result (λ c. c ≡ self.now) }
    {
        Ok(ColumnShape {
            path: self.path.copy(alloc)?,
            kind: self.kind,
            declared: self.declared,
            absent: self.absent,
            risky: self.risky,
        })
    }
}

/// A column that a step makes. The path is one that its copies share.
pub(crate) fn new_column(
    alloc: Global,
    name: &Name,
    kind: EdmType,
    risky: bool,
) -> Result<ColumnShape, AllocError>
    ensures { IfOk result (λ c. c ≡ spec.new_column name.now kind risky) }
{
    let mut names = Vec::new(alloc);
    names.push(name.copy(alloc)?)?;
    Ok(ColumnShape {
        path: Path::new(names).copy(alloc)?,
        kind,
        declared: false,
        absent: false,
        risky,
    })
}

/// The columns of a shape. A list that typing makes has the places of its columns in ascending order of paths, and finds
/// a column by binary search; one that was made of other columns is scanned.
#[derive(Debug, Drop)]
pub struct ColumnList {
    all: Vec<ColumnShape>,
    order: Option<Vec<usize>>,
}

impl Model for ColumnList {
    ghost use Rattle.std.specs.Prelude.{List, IfSome};
    ghost use Rattle.context_typing.specs.Shapes as seen;
    ghost use Rattle.context_typing.specs.Orders.{IsOrder};

    ghost Value = { List seen.ColumnShape };

    ghost view = { λ l. l.all.items };

    ghost invariant = { λ l. IfSome l.order (λ o. IsOrder l.all.items o.items) };
}

impl ColumnList {
    /// The list of these columns.
    pub fn new(columns: Vec<ColumnShape>) -> ColumnList
        ensures value { result ≡ columns.items }
    {
        ColumnList {
            all: columns,
            order: None,
        }
    }

    /// The columns in their order.
    pub fn as_slice(&self) -> &[ColumnShape]
        ensures value { result.now ≡ self.now }
    {
        &self.all
    }

    /// The columns that the list was made of.
    pub fn into_vec(self) -> Vec<ColumnShape>
        ensures value { result.items ≡ self }
    {
        self.all
    }

    /// The same columns, in a list that finds a column by binary search.
    pub fn copy(&self, alloc: Global) -> Result<ColumnList, AllocError>
        ensures value { IfOk result (λ l. l ≡ self.now) }
    {
        let all = copied(alloc, &self.all)?;
        match &self.order {
            Some(places) => {
                let order = Some(Vec::from_slice(alloc, places)?);
                Ok(ColumnList { all, order })
            }
            None => ColumnList::empty(alloc).with_all(all),
        }
    }

    /// The list of no column.
    pub(crate) fn empty(alloc: Global) -> ColumnList
        ensures { result ≡ [] }
    {
        ColumnList {
            all: Vec::new(alloc),
            order: Some(Vec::new(alloc)),
        }
    }

    /// The columns and one more behind them.
    pub(crate) fn with(self, column: ColumnShape) -> Result<ColumnList, AllocError>
        ensures { IfOk result (λ l. l ≡ self ++ column ∷ []) }
    {
        let ColumnList { all, order } = self;
        let order = match order {
            Some(places) => Some(orders::with_place(&all, places, &column)?),
            None => None,
        };
        let mut all = all;
        all.push(column)?;
        Ok(ColumnList { all, order })
    }

    /// The columns of two lists.
    pub(crate) fn joined(self, more: ColumnList) -> Result<ColumnList, AllocError>
        ensures { IfOk result (λ l. l ≡ self ++ more) }
    {
        if self.as_slice().is_empty() {
            Ok(more)
        } else {
            self.with_all(more.into_vec())
        }
    }

    /// The columns and more of them behind.
    pub(crate) fn with_all(self, more: Vec<ColumnShape>) -> Result<ColumnList, AllocError>
        ensures { IfOk result (λ l. l ≡ self ++ more.items) }
    {
        let mut columns = self;
        for column in more {
            columns = columns.with(column)?;
        }
        Ok(columns)
    }

    /// The column of a path.
    pub(crate) fn find(&self, path: &[Name]) -> Option<&ColumnShape>
        ensures { option_copied result ≡ paths.at_path (λ c. c.path) self.now path.now }
    {
        match &self.order {
            Some(places) => orders::found(&self.all, places, path),
            None => scanned(&self.all, path),
        }
    }

    /// The column of a path, which is likely to stand at this place.
    pub(crate) fn find_near(&self, place: usize, path: &[Name]) -> Option<&ColumnShape>
        ensures { option_copied result ≡ paths.at_path (λ c. c.path) self.now path.now }
    {
        if place < self.all.len() && self.is_known_to_differ() {
            let column = &self.all[place];
            if same_path(column.path.names(), path) {
                return Some(column);
            }
        }
        self.find(path)
    }

    /// Whether the list is known to have no two columns of one path.
    fn is_known_to_differ(&self) -> bool
        ensures { IsTrue result → spec.columns_differ self.now ≡ true }
    {
        match &self.order {
            Some(places) => places.len() == self.all.len(),
            None => false,
        }
    }

    /// Whether no two columns have one path.
    pub(crate) fn differ(&self) -> bool
        ensures { result ≡ spec.columns_differ self.now }
    {
        match &self.order {
            Some(places) => places.len() == self.all.len(),
            None => columns_differ(&self.all),
        }
    }

    /// Whether the path is a prefix of that of a column.
    pub(crate) fn any_begins_with(&self, path: &[Name]) -> bool
        ensures { result ≡ list_any (λ c. paths.is_prefix path.now c.path) self.now }
    {
        match &self.order {
            Some(places) => orders::any_begins_with(&self.all, places, path),
            None => scanned_begins_with(&self.all, path),
        }
    }

    /// Whether the path of a column is a prefix of this one.
    pub(crate) fn any_is_prefix_of(&self, path: &[Name]) -> bool
        ensures { result ≡ list_any (λ c. paths.is_prefix c.path path.now) self.now }
    {
        if path.len() > self.all.len() {
            return scanned_is_prefix_of(&self.all, path);
        }
        for k in 0..=path.len() {
            if self.find(&path[..k]).is_some() {
                return true;
            }
        }
        false
    }
}

/// The same columns.
fn copied(alloc: Global, columns: &[ColumnShape]) -> Result<Vec<ColumnShape>, AllocError>
    ensures { IfOk result (λ v. v.items ≡ columns.now) }
{
    let mut copies = Vec::with_capacity(alloc, columns.len())?;
    for column in columns {
        copies.push(column.copy(alloc)?)?;
    }
    Ok(copies)
}

/// The column of a path, by a scan.
fn scanned<'a>(columns: &'a [ColumnShape], path: &[Name]) -> Option<&'a ColumnShape>
    ensures { option_copied result ≡ paths.at_path (λ c. c.path) columns.now path.now }
{
    columns
        .iter()
        .find(|column| same_path(column.path.names(), path))
}

/// Whether the path is a prefix of that of a column, by a scan.
fn scanned_begins_with(columns: &[ColumnShape], path: &[Name]) -> bool
    ensures { result ≡ list_any (λ c. paths.is_prefix path.now c.path) columns.now }
{
    columns
        .iter()
        .any(|column| is_prefix(path, column.path.names()))
}

/// Whether the path of a column is a prefix of this one, by a scan.
fn scanned_is_prefix_of(columns: &[ColumnShape], path: &[Name]) -> bool
    ensures { result ≡ list_any (λ c. paths.is_prefix c.path path.now) columns.now }
{
    columns
        .iter()
        .any(|column| is_prefix(column.path.names(), path))
}

/// Whether one of the columns has the path of this one.
fn has_path(columns: &[ColumnShape], column: &ColumnShape) -> bool
    ensures { result ≡ list_any (paths.same_path column.now.path) (map (λ c. c.path) columns.now) }
{
    one_has_path(columns, column)
}

/// Whether one of the columns has the path of this one, column by column.
fn one_has_path(columns: &[ColumnShape], column: &ColumnShape) -> bool
    ensures { result ≡ list_any (λ c. paths.same_path column.now.path c.path) columns.now }
{
    columns
        .iter()
        .any(|other| same_path(column.path.names(), other.path.names()))
}

/// Whether no two columns have one path, by a scan for each.
fn columns_differ(columns: &[ColumnShape]) -> bool
    ensures { result ≡ spec.columns_differ columns.now }
{
    for (i, column) in columns.iter().enumerate() {
        if has_path(&columns[i + 1..], column) {
            return false;
        }
    }
    true
}
