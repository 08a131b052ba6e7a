//! The shape after a join (Data Aggregation 4.0, section 3.5.1).
ghost use Rattle.std.specs.Prelude.{◌≡◌, ◌++◌, [], ◌∷◌, map, option_map, IfOk, IfSome, OnOk, IsTrue};
ghost use Rattle.edm_model.specs.LookUps.{IsType, many_named};
ghost use Rattle.context_typing.specs.ShapeTypes.{has_types};
ghost use Rattle.context_typing.specs.Typing as spec;

use crate::columns::{ColumnList, ColumnShape};
use crate::lookups::root_type;
use crate::shapes::{PrefixList, PrefixShape, Shape};
use apply_ast::{Name, Path};
use edm_model::{Model, TypeId};
use std::alloc::{AllocError, Global};

/// The entity type that a collection-valued navigation property leads to.
fn many_target(m: &Model, of: TypeId, nav: &Name) -> Option<TypeId>
    requires { IsType m.now of }
    ensures value { result ≡ option_map (λ v. v.target) (many_named m.now of nav.now) }
    ensures there { IfSome result (IsType m.now) }
{
    match m.nav_named(of, nav.text()) {
        Some(n) => {
            if m.nav_many(n) {
                Some(m.nav_target(n))
            } else {
                None
            }
        }
        None => None,
    }
}

/// The entity type of what a join relates.
pub fn join_target(m: &Model, shape: &Shape, nav: &Name) -> Option<TypeId>
    requires { IsTrue (has_types m.now shape.now) }
    ensures value { result ≡ option_map (λ v. v.target) (spec.join_navigation m.now shape.now nav.now) }
    ensures there { IfSome result (IsType m.now) }
{
    match root_type(m, shape) {
        Some(of) => many_target(m, of, nav),
        None => None,
    }
}

/// The path of one name, which its copies share.
fn alone(alloc: Global, name: &Name) -> Result<Path, AllocError>
    ensures { IfOk result (λ p. p ≡ name.now ∷ []) }
{
    let mut names = Vec::new(alloc);
    names.push(name.copy(alloc)?)?;
    Path::new(names).copy(alloc)
}

/// A path under an alias, which its copies share.
fn under(alloc: Global, alias: &Name, path: &Path) -> Result<Path, AllocError>
    ensures { IfOk result (λ p. p ≡ alias.now ∷ path.now) }
{
    let mut names = Vec::new(alloc);
    names.push(alias.copy(alloc)?)?;
    for name in path.names() {
        names.push(name.copy(alloc)?)?;
    }
    Path::new(names).copy(alloc)
}

/// A prefix under an alias.
fn prefix_under(
    alloc: Global,
    outer: bool,
    alias: &Name,
    prefix: &PrefixShape,
) -> Result<PrefixShape, AllocError>
    ensures { IfOk result (λ x. x ≡ spec.prefix_under outer alias.now prefix.now) }
{
    Ok(PrefixShape {
        path: under(alloc, alias, &prefix.path)?,
        of: prefix.of,
        absent: outer || prefix.absent,
    })
}

/// A column under an alias.
fn column_under(
    alloc: Global,
    outer: bool,
    alias: &Name,
    column: &ColumnShape,
) -> Result<ColumnShape, AllocError>
    ensures { IfOk result (λ x. x ≡ spec.column_under outer alias.now column.now) }
{
    Ok(ColumnShape {
        path: under(alloc, alias, &column.path)?,
        kind: column.kind,
        declared: column.declared,
        absent: outer || column.absent,
        risky: column.risky,
    })
}

/// The prefixes of a shape and, under an alias, all prefixes of the related entities.
fn joined_prefixes(
    alloc: Global,
    outer: bool,
    alias: &Name,
    prefixes: Vec<PrefixShape>,
    related: &Shape,
) -> Result<Vec<PrefixShape>, AllocError>
    ensures { IfOk result (λ v. v.items ≡ prefixes.items ++ map (spec.prefix_under outer alias.now) (spec.all_prefixes related.now)) }
{
    let mut prefixes = prefixes;
    add_root(alloc, outer, alias, &mut prefixes, related)?;
    add_prefixes(
        alloc,
        outer,
        alias,
        &mut prefixes,
        related.prefixes.as_slice(),
    )?;
    Ok(prefixes)
}

/// Adds the root of the related entities under an alias.
fn add_root(
    alloc: Global,
    outer: bool,
    alias: &Name,
    prefixes: &mut Vec<PrefixShape>,
    related: &Shape,
) -> Result<(), AllocError>
    ensures { OnOk result (prefixes.new.items ≡ prefixes.old.items ++ map (spec.prefix_under outer alias.now) (spec.all_prefixes (record related.now { prefixes = [] }))) }
{
    match related.root {
        Some(root) => {
            let path = alone(alloc, alias)?;
            prefixes.push(PrefixShape {
                path,
                of: root.of,
                absent: outer || root.absent,
            })?;
            Ok(())
        }
        None => Ok(()),
    }
}

/// Adds prefixes under an alias.
fn add_prefixes(
    alloc: Global,
    outer: bool,
    alias: &Name,
    prefixes: &mut Vec<PrefixShape>,
    more: &[PrefixShape],
) -> Result<(), AllocError>
    ensures { OnOk result (prefixes.new.items ≡ prefixes.old.items ++ map (spec.prefix_under outer alias.now) more.now) }
{
    for prefix in more {
        prefixes.push(prefix_under(alloc, outer, alias, prefix)?)?;
    }
    Ok(())
}

/// The columns of a shape and, under an alias, those of the related entities.
fn joined_columns(
    alloc: Global,
    outer: bool,
    alias: &Name,
    columns: ColumnList,
    more: &[ColumnShape],
) -> Result<ColumnList, AllocError>
    ensures { IfOk result (λ l. l ≡ columns ++ map (spec.column_under outer alias.now) more.now) }
{
    let mut columns = columns;
    for column in more {
        columns = columns.with(column_under(alloc, outer, alias, column)?)?;
    }
    Ok(columns)
}

/// The shape after a join: the input's, and under the alias what the related entities become.
pub fn joined_shape(
    alloc: Global,
    outer: bool,
    alias: &Name,
    shape: Shape,
    related: &Shape,
) -> Result<Shape, AllocError>
    ensures value { IfOk result (λ S. S ≡ spec.joined_shape outer alias.now shape related.now) }
{
    let Shape {
        root,
        prefixes,
        columns,
    } = shape;
    let prefixes = joined_prefixes(alloc, outer, alias, prefixes.into_vec(), related)?;
    let columns = joined_columns(alloc, outer, alias, columns, related.columns.as_slice())?;
    Ok(Shape {
        root,
        prefixes: PrefixList::new(prefixes),
        columns,
    })
}
