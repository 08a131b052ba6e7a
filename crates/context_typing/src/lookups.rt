//! What a path leads to on a shape.
ghost use Rattle.std.specs.Prelude.{◌≡◌, ◌≤◌, length, option_map, option_and_then, is_some, IfSome, IsTrue};
ghost use Rattle.std.specs.Option.{option_copied};
ghost use Rattle.std.specs.List.{list_any};
ghost use Rattle.edm_model.specs.LookUps.{IsType, property_on, property_named, one_named};
ghost use Rattle.context_typing.specs.Paths.{at_path};
ghost use Rattle.context_typing.specs.Paths as path;
ghost use Rattle.context_typing.specs.ShapeTypes.{has_types};
ghost use Rattle.context_typing.specs.Typing as spec;

use crate::columns::ColumnShape;
use crate::paths::{begins, same_path};
use crate::shapes::{PrefixShape, Shape};
use apply_ast::{Name, Path};
use edm_model::{Model, TypeId};
use edm_values::{EdmType, PRECISION_MAX};
use std::slice;

/// The column of a path.
pub(crate) fn column_at<'a>(shape: &'a Shape, path: &[Name]) -> Option<&'a ColumnShape>
    ensures { option_copied result ≡ spec.column_at shape.now path.now }
{
    shape.columns.find(path)
}

/// The prefix of a path among these.
pub(crate) fn prefix_among<'a>(
    prefixes: &'a [PrefixShape],
    path: &[Name],
) -> Option<&'a PrefixShape>
    ensures { option_copied result ≡ at_path (λ x. x.path) prefixes.now path.now }
{
    prefixes
        .iter()
        .find(|prefix| same_path(prefix.path.names(), path))
}

/// The prefix of a path that is not empty.
pub(crate) fn prefix_behind<'a>(shape: &'a Shape, path: &[Name]) -> Option<&'a PrefixShape>
    ensures { option_copied result ≡ at_path (λ x. x.path) shape.now.prefixes path.now }
{
    prefix_among(shape.prefixes.as_slice(), path)
}

/// The type of the entities at a prefix.
pub(crate) fn prefix_type(shape: &Shape, path: &[Name]) -> Option<TypeId>
    ensures { result ≡ option_map (λ x. x.of) (spec.prefix_at shape.now path.now) }
{
    match shape.root {
        Some(root) => {
            if path.is_empty() {
                return Some(root.of);
            }
        }
        None => {}
    }
    match prefix_behind(shape, path) {
        Some(prefix) => Some(prefix.of),
        None => None,
    }
}

/// The type of the property that a path leads to from an entity type.
pub(crate) fn property_kind(m: &Model, of: TypeId, path: &[Name]) -> Option<EdmType>
    requires { IsType m.now of }
    ensures { result ≡ option_map (λ p. p.kind) (property_on m.now of path.now) }
{
    let mut at = of;
    for (i, name) in path.iter().enumerate() {
        if i + 1 == path.len() {
            return own_kind(m, at, name);
        }
        match target_of(m, at, name) {
            Some(target) => at = target,
            None => return None,
        }
    }
    None
}

/// The type of a property of an entity type.
fn own_kind(m: &Model, of: TypeId, name: &Name) -> Option<EdmType>
    requires { IsType m.now of }
    ensures { result ≡ option_map (λ x. (x.1).kind) (property_named m.now of name.now) }
{
    match m.prop_named(of, name.text()) {
        Some(p) => Some(m.prop_type(p)),
        None => None,
    }
}

/// The entity type that a single-valued navigation property leads to.
fn target_of(m: &Model, of: TypeId, name: &Name) -> Option<TypeId>
    requires { IsType m.now of }
    ensures value { result ≡ option_map (λ v. v.target) (one_named m.now of name.now) }
    ensures there { IfSome result (IsType m.now) }
{
    match m.nav_named(of, name.text()) {
        Some(n) => {
            if m.nav_many(n) {
                None
            } else {
                Some(m.nav_target(n))
            }
        }
        None => None,
    }
}

/// The type of the property that a path leads to from the entity at the longest prefix.
pub(crate) fn path_property(m: &Model, shape: &Shape, path: &[Name]) -> Option<EdmType>
    requires { IsTrue (has_types m.now shape.now) }
    ensures { result ≡ option_map (λ p. p.kind) (spec.path_property m.now shape.now path.now) }
{
    let mut k = path.len();
    while k > 0 {
        if let Some(of) = prefix_type(shape, &path[..k]) {
            return property_kind(m, of, &path[k..]);
        }
        k -= 1;
    }
    match prefix_type(shape, &path[..0]) {
        Some(of) => property_kind(m, of, path),
        None => None,
    }
}

/// A type with the precision that expressions have.
fn widened(kind: EdmType) -> EdmType
    ensures { result ≡ spec.widened kind }
{
    match kind {
        EdmType::Dec { scale, .. } => EdmType::Dec {
            scale,
            precision: PRECISION_MAX,
        },
        other => other,
    }
}

/// The type that a path has by its property.
pub(crate) fn declared_kind(m: &Model, shape: &Shape, path: &[Name]) -> Option<EdmType>
    requires { IsTrue (has_types m.now shape.now) }
    ensures { result ≡ option_map (λ x. spec.widened x.kind) (spec.path_property m.now shape.now path.now) }
{
    match path_property(m, shape, path) {
        Some(kind) => Some(widened(kind)),
        None => None,
    }
}

/// The type of a path: that of its column, or else of its property.
pub(crate) fn path_kind(m: &Model, shape: &Shape, path: &Path) -> Option<EdmType>
    requires { IsTrue (has_types m.now shape.now) }
    ensures { result ≡ spec.path_kind m.now shape.now path.now }
{
    match column_at(shape, path.names()) {
        Some(column) => Some(column.kind),
        None => declared_kind(m, shape, path.names()),
    }
}

/// Whether a path stands for a declared property.
pub(crate) fn is_declared(m: &Model, shape: &Shape, path: &Path) -> bool
    requires { IsTrue (has_types m.now shape.now) }
    ensures { result ≡ spec.is_declared m.now shape.now path.now }
{
    match column_at(shape, path.names()) {
        Some(column) => column.declared,
        None => path_property(m, shape, path.names()).is_some(),
    }
}

/// Whether a path is that of a column that may be past its range.
pub fn is_risky(shape: &Shape, path: &Path) -> bool
    ensures value { result ≡ spec.is_risky shape.now path.now }
{
    match column_at(shape, path.names()) {
        Some(column) => column.risky,
        None => false,
    }
}

/// Whether the name is a property or a navigation property of the type.
fn is_member(m: &Model, of: TypeId, name: &Name) -> bool
    requires { IsType m.now of }
    ensures { result ≡ spec.is_member m.now of name.now }
{
    m.prop_named(of, name.text()).is_some() || m.nav_named(of, name.text()).is_some()
}

/// Whether the name begins the path of a column.
fn begins_column(shape: &Shape, name: &Name) -> bool
    ensures { result ≡ list_any (λ c. path.begins name.now c.path) shape.now.columns }
{
    shape.columns.any_begins_with(slice::from_ref(name))
}

/// Whether the name begins a prefix.
fn begins_prefix(shape: &Shape, name: &Name) -> bool
    ensures { result ≡ list_any (λ x. path.begins name.now x.path) shape.now.prefixes }
{
    shape
        .prefixes
        .as_slice()
        .iter()
        .any(|prefix| begins(name, &prefix.path))
}

/// Whether a new column or prefix may take the name.
pub(crate) fn is_free(m: &Model, shape: &Shape, name: &Name) -> bool
    requires { IsTrue (has_types m.now shape.now) }
    ensures { result ≡ spec.is_free m.now shape.now name.now }
{
    if begins_column(shape, name) || begins_prefix(shape, name) {
        return false;
    }
    match shape.root {
        Some(root) => !is_member(m, root.of, name),
        None => true,
    }
}

/// The entity type at the empty prefix, where no instance lacks it.
pub(crate) fn root_type(m: &Model, shape: &Shape) -> Option<TypeId>
    requires { IsTrue (has_types m.now shape.now) }
    ensures value { result ≡ spec.root_type shape.now }
    ensures there { IfSome result (IsType m.now) }
{
    match shape.root {
        Some(root) => { if root.absent { None } else { Some(root.of) } }
        None => None,
    }
}
