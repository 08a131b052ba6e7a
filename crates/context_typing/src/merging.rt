//! The shape after a concatenation: all prefixes and columns of the branches (Data Aggregation 4.0, section 3.2.2).
//!
//! The columns of all branches go into one table, each path once. Then each path of the table is looked up in each
//! branch, first at the place that it has in the table: branches on one input mostly have its columns there.
ghost use Rattle.std.specs.Prelude.{◌≡◌, ◌==◌, ◌||◌, [], Some, fold, map, IfOk, IsTrue, option_map};
ghost use Rattle.std.specs.List.{list_all, list_any};
ghost use Rattle.edm_values.specs.Lists.{all_some, find_map};
ghost use Rattle.edm_values.specs.Literals.{same_kind};
ghost use Rattle.context_typing.specs.Merging as merge;
ghost use Rattle.context_typing.specs.Paths.{at_path, is_none_or};
ghost use Rattle.context_typing.specs.ShapeTypes.{has_types};
ghost use Rattle.context_typing.specs.Typing as spec;

use crate::columns::{ColumnList, ColumnShape};
use crate::lookups::{declared_kind, prefix_among, prefix_behind, prefix_type};
use crate::shapes::{PrefixList, PrefixShape, RootShape, Shape};
use edm_model::Model as EdmModel;
use edm_values::EdmType;
use std::alloc::{AllocError, Global};
use std::marker::Model;

// ---- columns

/// Whether the column that stands in the table at this one's path has its kind, where there is one.
fn is_of_kind(table: &ColumnList, near: usize, column: &ColumnShape) -> Option<bool>
    ensures { result ≡ option_map (λ d. same_kind d.kind column.now.kind) (at_path (λ d. d.path) table.now column.now.path) }
{
    match table.find_near(near, column.path.names()) {
        Some(first) => Some(first.kind.same_kind(column.kind)),
        None => None,
    }
}

/// The table with the columns of one more branch, where two of one path have one kind.
fn add_columns(
    alloc: Global,
    table: ColumnList,
    columns: &[ColumnShape],
) -> Result<Option<ColumnList>, AllocError>
    ensures { IfOk result (λ o. o ≡ fold merge.add_column (Some table) columns.now) }
{
    let mut table = table;
    for (i, column) in columns.iter().enumerate() {
        match is_of_kind(&table, i, column) {
            Some(true) => {}
            Some(false) => return Ok(None),
            None => table = table.with(column.copy(alloc)?)?,
        }
    }
    Ok(Some(table))
}

/// The columns of all branches, the first of each path, where two of one path have one kind.
fn table_of_columns(alloc: Global, shapes: &[Shape]) -> Result<Option<ColumnList>, AllocError>
    ensures { IfOk result (λ o. o ≡ fold merge.add_columns (Some []) shapes.now) }
{
    let mut table = ColumnList::empty(alloc);
    for shape in shapes {
        match add_columns(alloc, table, shape.columns.as_slice())? {
            Some(next) => table = next,
            None => return Ok(None),
        }
    }
    Ok(Some(table))
}

/// How branches have a column: whether each that has it declares it, whether one lacks it or may, and whether its
/// values in one may be past their range.
#[derive(Clone, Copy, Drop)]
struct Joined {
    declared: bool,
    absent: bool,
    risky: bool,
}

impl Model for Joined {
    ghost use Rattle.context_typing.specs.Merging as seen;

    ghost Value = { seen.Joined };

    ghost view = { λ j. record { declared = j.declared; absent = j.absent; risky = j.risky } };

    ghost inverse = { λ j. record { declared = j.declared; absent = j.absent; risky = j.risky } };
}

/// How a branch has the column, where the branch types the column's path with its kind or not at all.
fn in_branch(m: &EdmModel, shape: &Shape, near: usize, column: &ColumnShape) -> Option<Joined>
    requires { IsTrue (has_types m.now shape.now) }
    ensures { result ≡ merge.in_branch m.now shape.now column.now }
{
    match shape.columns.find_near(near, column.path.names()) {
        Some(own) => {
            if column.kind.same_kind(own.kind) {
                Some(Joined {
                    declared: own.declared,
                    absent: own.absent,
                    risky: own.risky,
                })
            } else {
                None
            }
        }
        None => {
            if agrees(column.kind, declared_kind(m, shape, column.path.names())) {
                Some(Joined {
                    declared: true,
                    absent: true,
                    risky: false,
                })
            } else {
                None
            }
        }
    }
}

/// Whether the kind is that of the other type, where there is one.
fn agrees(kind: EdmType, other: Option<EdmType>) -> bool
    ensures { result ≡ is_none_or (same_kind kind) other }
{
    match other {
        Some(other) => kind.same_kind(other),
        None => true,
    }
}

/// How two lists of branches together have a column.
fn both(a: Joined, b: Joined) -> Joined
    ensures { result ≡ merge.both a b }
{
    Joined {
        declared: a.declared && b.declared,
        absent: a.absent || b.absent,
        risky: a.risky || b.risky,
    }
}

/// How all branches have the column, where they agree.
fn in_branches(m: &EdmModel, shapes: &[Shape], near: usize, column: &ColumnShape) -> Option<Joined>
    requires { IsTrue (list_all (has_types m.now) shapes.now) }
    ensures { result ≡ merge.in_branches m.now shapes.now column.now }
{
    let mut joined = Joined {
        declared: true,
        absent: false,
        risky: false,
    };
    for shape in shapes {
        match in_branch(m, shape, near, column) {
            Some(own) => joined = both(joined, own),
            None => return None,
        }
    }
    Some(joined)
}

/// A column of the table as the concatenation has it, where the branches agree.
fn joined_column(
    alloc: Global,
    m: &EdmModel,
    shapes: &[Shape],
    near: usize,
    column: &ColumnShape,
) -> Result<Option<ColumnShape>, AllocError>
    requires { IsTrue (list_all (has_types m.now) shapes.now) }
    ensures { IfOk result (λ o. o ≡ merge.joined_column m.now shapes.now column.now) }
{
    match in_branches(m, shapes, near, column) {
        Some(joined) => Ok(Some(ColumnShape {
            path: column.path.copy(alloc)?,
            kind: column.kind,
            declared: joined.declared,
            absent: joined.absent,
            risky: joined.risky,
        })),
        None => Ok(None),
    }
}

/// The columns of the table as the concatenation has them, where the branches agree.
fn joined_columns(
    alloc: Global,
    m: &EdmModel,
    shapes: &[Shape],
    table: &[ColumnShape],
) -> Result<Option<ColumnList>, AllocError>
    requires { IsTrue (list_all (has_types m.now) shapes.now) }
    ensures { IfOk result (λ o. o ≡ all_some (map (merge.joined_column m.now shapes.now) table.now)) }
{
    let mut columns = ColumnList::empty(alloc);
    for (i, column) in table.iter().enumerate() {
        match joined_column(alloc, m, shapes, i, column)? {
            Some(column) => columns = columns.with(column)?,
            None => return Ok(None),
        }
    }
    Ok(Some(columns))
}

/// The columns of the concatenation, where the branches agree.
fn concat_columns(
    alloc: Global,
    m: &EdmModel,
    shapes: &[Shape],
) -> Result<Option<ColumnList>, AllocError>
    requires { IsTrue (list_all (has_types m.now) shapes.now) }
    ensures { IfOk result (λ o. o ≡ merge.concat_columns m.now shapes.now) }
{
    match table_of_columns(alloc, shapes)? {
        Some(table) => joined_columns(alloc, m, shapes, table.as_slice()),
        None => Ok(None),
    }
}

// ---- prefixes, of which there are at most as many as joins

/// Whether the prefix that stands in the table at this one's path has its entity type, where there is one.
fn is_of_type(table: &[PrefixShape], prefix: &PrefixShape) -> Option<bool>
    ensures { result ≡ option_map (λ y. y.of == prefix.now.of) (at_path (λ y. y.path) table.now prefix.now.path) }
{
    match prefix_among(table, prefix.path.names()) {
        Some(first) => Some(first.of.place() == prefix.of.place()),
        None => None,
    }
}

/// The table with the prefixes of one more branch, where two of one path have one entity type.
fn add_prefixes(
    alloc: Global,
    table: Vec<PrefixShape>,
    prefixes: &[PrefixShape],
) -> Result<Option<Vec<PrefixShape>>, AllocError>
    ensures { IfOk result (λ o. option_map (λ v. v.items) o ≡ fold merge.add_prefix (Some table.items) prefixes.now) }
{
    let mut table = table;
    for prefix in prefixes {
        match is_of_type(&table, prefix) {
            Some(true) => {}
            Some(false) => return Ok(None),
            None => table.push(prefix.copy(alloc)?)?,
        }
    }
    Ok(Some(table))
}

/// The prefixes of all branches, the first of each path, where two of one path have one entity type.
fn table_of_prefixes(
    alloc: Global,
    shapes: &[Shape],
) -> Result<Option<Vec<PrefixShape>>, AllocError>
    ensures { IfOk result (λ o. option_map (λ v. v.items) o ≡ fold merge.add_prefixes (Some []) shapes.now) }
{
    let mut table = Vec::new(alloc);
    for shape in shapes {
        match add_prefixes(alloc, table, shape.prefixes.as_slice())? {
            Some(next) => table = next,
            None => return Ok(None),
        }
    }
    Ok(Some(table))
}

/// Whether a branch lacks the prefix or may, where it has the prefix with its entity type or not at all.
fn lacks_prefix(shape: &Shape, prefix: &PrefixShape) -> Option<bool>
    ensures { result ≡ merge.lacks_prefix shape.now prefix.now }
{
    match prefix_behind(shape, prefix.path.names()) {
        Some(own) => {
            if own.of.place() == prefix.of.place() {
                Some(own.absent)
            } else {
                None
            }
        }
        None => Some(true),
    }
}

/// Whether one of the branches lacks the prefix or may, where they agree.
fn some_lack_prefix(shapes: &[Shape], prefix: &PrefixShape) -> Option<bool>
    ensures { result ≡ merge.some_lack_prefix shapes.now prefix.now }
{
    let mut absent = false;
    for shape in shapes {
        match lacks_prefix(shape, prefix) {
            Some(own) => absent = either(absent, own),
            None => return None,
        }
    }
    Some(absent)
}

/// Whether one of the two holds.
fn either(a: bool, b: bool) -> bool
    ensures { result ≡ (a || b) }
{
    a || b
}

/// A prefix of the table as the concatenation has it, where the branches agree.
fn joined_prefix(
    alloc: Global,
    shapes: &[Shape],
    prefix: &PrefixShape,
) -> Result<Option<PrefixShape>, AllocError>
    ensures { IfOk result (λ o. o ≡ merge.joined_prefix shapes.now prefix.now) }
{
    match some_lack_prefix(shapes, prefix) {
        Some(absent) => Ok(Some(PrefixShape {
            path: prefix.path.copy(alloc)?,
            of: prefix.of,
            absent,
        })),
        None => Ok(None),
    }
}

/// The prefixes of the table as the concatenation has them, where the branches agree.
fn joined_prefixes(
    alloc: Global,
    shapes: &[Shape],
    table: &[PrefixShape],
) -> Result<Option<Vec<PrefixShape>>, AllocError>
    ensures { IfOk result (λ o. option_map (λ v. v.items) o ≡ all_some (map (merge.joined_prefix shapes.now) table.now)) }
{
    let mut prefixes = Vec::new(alloc);
    for prefix in table {
        match joined_prefix(alloc, shapes, prefix)? {
            Some(prefix) => prefixes.push(prefix)?,
            None => return Ok(None),
        }
    }
    Ok(Some(prefixes))
}

/// The prefixes of the concatenation, where the branches agree.
fn concat_prefixes(alloc: Global, shapes: &[Shape]) -> Result<Option<Vec<PrefixShape>>, AllocError>
    ensures { IfOk result (λ o. option_map (λ v. v.items) o ≡ merge.concat_prefixes shapes.now) }
{
    match table_of_prefixes(alloc, shapes)? {
        Some(table) => joined_prefixes(alloc, shapes, &table),
        None => Ok(None),
    }
}

// ---- the root

/// Whether a branch has this entity type at the empty prefix, or none.
fn root_fits(shape: &Shape, root: &RootShape) -> bool
    ensures { result ≡ is_none_or (λ y. y.of == root.now.of) (spec.prefix_at shape.now []) }
{
    match prefix_type(shape, &[]) {
        Some(of) => of.place() == root.of.place(),
        None => true,
    }
}

/// Whether each branch has this root, or none.
fn root_fits_all(shapes: &[Shape], root: &RootShape) -> bool
    ensures { result ≡ merge.root_agrees shapes.now root.now }
{
    shapes.iter().all(|shape| root_fits(shape, root))
}

/// Whether each branch has the root of this one, or none.
fn root_agrees(shapes: &[Shape], shape: &Shape) -> bool
    ensures { result ≡ is_none_or (merge.root_agrees shapes.now) shape.now.root }
{
    match shape.root {
        Some(root) => root_fits_all(shapes, &root),
        None => true,
    }
}

/// Whether all branches that have a root have one of one entity type.
fn roots_agree(shapes: &[Shape]) -> bool
    ensures { result ≡ merge.roots_agree shapes.now }
{
    shapes.iter().all(|shape| root_agrees(shapes, shape))
}

/// Whether the root is lacking or may be.
fn root_absent(shape: &Shape) -> bool
    ensures { result ≡ is_none_or (λ x. x.absent) shape.now.root }
{
    match shape.root {
        Some(root) => root.absent,
        None => true,
    }
}

/// The root of the first branch that has one.
fn first_root(shapes: &[Shape]) -> Option<RootShape>
    ensures { result ≡ find_map (λ S. S.root) shapes.now }
{
    for shape in shapes {
        if let Some(root) = shape.root {
            return Some(root);
        }
    }
    None
}

/// Whether some branch lacks the root or may lack it.
fn some_root_absent(shapes: &[Shape]) -> bool
    ensures { result ≡ list_any (λ S. is_none_or (λ x. x.absent) S.root) shapes.now }
{
    shapes.iter().any(|shape| root_absent(shape))
}

/// The root of the first branch that has one, absent where some branch lacks it or has it so.
fn merged_root(shapes: &[Shape]) -> Option<RootShape>
    ensures { result ≡ option_map (spec.merged_root shapes.now) (find_map (λ S. S.root) shapes.now) }
{
    match first_root(shapes) {
        Some(root) => Some(RootShape {
            of: root.of,
            absent: some_root_absent(shapes),
        }),
        None => None,
    }
}

/// Whether there are branches enough, and their roots agree.
fn may_join(shapes: &[Shape]) -> bool
    ensures { result ≡ merge.may_join shapes.now }
{
    shapes.len() >= 2 && roots_agree(shapes)
}

/// The prefixes and the columns of the branches with their root, where those agree.
fn joined_branches(
    alloc: Global,
    m: &EdmModel,
    shapes: &[Shape],
) -> Result<Option<Shape>, AllocError>
    requires { IsTrue (list_all (has_types m.now) shapes.now) }
    ensures { IfOk result (λ o. o ≡ merge.joined_branches m.now shapes.now) }
{
    match concat_prefixes(alloc, shapes)? {
        Some(prefixes) => match concat_columns(alloc, m, shapes)? {
            Some(columns) => Ok(Some(Shape {
                root: merged_root(shapes),
                prefixes: PrefixList::new(prefixes),
                columns,
            })),
            None => Ok(None),
        },
        None => Ok(None),
    }
}

/// The shape after a concatenation, where the branches agree.
pub fn concat_shape(
    alloc: Global,
    m: &EdmModel,
    shapes: &[Shape],
) -> Result<Option<Shape>, AllocError>
    requires { IsTrue (list_all (has_types m.now) shapes.now) }
    ensures value { IfOk result (λ o. o ≡ spec.concat_shape m.now shapes.now) }
{
    if may_join(shapes) {
        joined_branches(alloc, m, shapes)
    } else {
        Ok(None)
    }
}
