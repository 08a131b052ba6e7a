//! The typing of steps whose items hold no pipeline.
ghost use Rattle.std.specs.Prelude.{◌≡◌, ◌&&◌, ◌++◌, nat_le, map, option_map, option_and_then, IfOk, IfSome, IsTrue, length};
ghost use Rattle.std.specs.Bool.{then_some};
ghost use Rattle.std.specs.List.{list_all};
ghost use Rattle.edm_values.specs.Lists.{all_some, is_nonempty};
ghost use Rattle.edm_values.specs.Literals.{is_boolean_kind, is_number_kind};
ghost use Rattle.edm_values.specs.Values.{integer_max};
ghost use Rattle.edm_model.specs.LookUps.{IsType};
ghost use Rattle.apply_ast.specs.Views.{expr_of, named_of, item_of, agg_of, hier_of, number_literal_of, top_of};
ghost use Rattle.context_typing.specs.Readings.{readings, AreTypedOver};
ghost use Rattle.context_typing.specs.ShapeTypes.{has_types};
ghost use Rattle.context_typing.specs.Shapes.{set_shape};
ghost use Rattle.context_typing.specs.Nodes.{nodes_pair};
ghost use Rattle.context_typing.specs.Steps as steps;
ghost use Rattle.context_typing.specs.Typing as spec;

use crate::columns::{ColumnList, ColumnShape, new_column};
use crate::customs::Customs;
use crate::expressions::{expr_kind, is_sure};
use crate::kinds::{is_boolean, is_sum, method_kind};
use crate::lookups::{is_free, path_kind, root_type};
use crate::shapes::{PrefixList, RootShape, Shape};
use apply_ast::{
    AggItem, AggList, Expr, HierName, Limit, Method, Name, Named, NamedList, Number, OrderItem,
    Path, TopStep, TraverseStep,
};
use edm_model::{Model, TypeId};
use edm_values::EdmType;
use std::alloc::{AllocError, Global};

/// The greatest number of a `skip`, a `top` or a count.
const INTEGER_MAX: u64 = i64::MAX as u64;

/// The shape of the instances of an entity set.
pub fn set_shape(alloc: Global, of: TypeId) -> Shape
    ensures value { result ≡ set_shape of }
{
    Shape {
        root: Some(RootShape { of, absent: false }),
        prefixes: PrefixList::new(Vec::new(alloc)),
        columns: ColumnList::empty(alloc),
    }
}

/// The shape without prefixes and with these columns.
pub(crate) fn bare_shape(alloc: Global, columns: ColumnList) -> Shape
    ensures { result ≡ record spec.no_shape { columns = columns } }
{
    Shape {
        root: None,
        prefixes: PrefixList::new(Vec::new(alloc)),
        columns,
    }
}

/// The shape with more columns.
pub(crate) fn with_more(shape: Shape, more: ColumnList) -> Result<Shape, AllocError>
    ensures { IfOk result (λ S. S ≡ record shape { columns = shape.columns ++ more }) }
{
    let Shape {
        root,
        prefixes,
        columns,
    } = shape;
    Ok(Shape {
        root,
        prefixes,
        columns: columns.joined(more)?,
    })
}

/// Whether a number is one that `skip` and `top` take.
pub(crate) fn is_count(n: u64) -> bool
    ensures { result ≡ nat_le n integer_max }
{
    n <= INTEGER_MAX
}

/// Whether an expression is a Boolean.
pub fn is_test(m: &Model, shape: &Shape, e: &Expr) -> bool
    requires { IsTrue (has_types m.now shape.now) }
    ensures value { result ≡ spec.has_kind is_boolean_kind m.now shape.now (expr_of e.now) }
{
    match expr_kind(m, shape, e) {
        Some(kind) => is_boolean(kind),
        None => false,
    }
}

/// Whether an expression is a number.
fn is_number(m: &Model, shape: &Shape, e: &Expr) -> bool
    requires { IsTrue (has_types m.now shape.now) }
    ensures { result ≡ spec.has_kind is_number_kind m.now shape.now (expr_of e.now) }
{
    match expr_kind(m, shape, e) {
        Some(kind) => kind.is_number(),
        None => false,
    }
}

/// Whether an expression has a typing.
fn is_typed(m: &Model, shape: &Shape, e: &Expr) -> bool
    requires { IsTrue (has_types m.now shape.now) }
    ensures { result ≡ spec.is_typed m.now shape.now (expr_of e.now) }
{
    expr_kind(m, shape, e).is_some()
}

// ---- compute

/// The column of an item of a computation.
fn named_column(
    alloc: Global,
    m: &Model,
    shape: &Shape,
    item: &Named,
) -> Result<Option<ColumnShape>, AllocError>
    requires { IsTrue (has_types m.now shape.now) }
    ensures { IfOk result (λ o. o ≡ steps.named_column m.now shape.now (named_of item.now)) }
{
    match expr_kind(m, shape, &item.expr) {
        Some(kind) => {
            let risky = !is_sure(m, shape, &item.expr);
            Ok(Some(new_column(alloc, &item.name, kind, risky)?))
        }
        None => Ok(None),
    }
}

/// The columns of a computation, where each item has one.
fn named_columns(
    alloc: Global,
    m: &Model,
    shape: &Shape,
    items: &[Named],
) -> Result<Option<ColumnList>, AllocError>
    requires { IsTrue (has_types m.now shape.now) }
    ensures { IfOk result (λ o. o ≡ all_some (map (steps.named_column m.now shape.now) (map named_of items.now))) }
{
    let mut columns = ColumnList::empty(alloc);
    for item in items {
        match named_column(alloc, m, shape, item)? {
            Some(column) => columns = columns.with(column)?,
            None => return Ok(None),
        }
    }
    Ok(Some(columns))
}

/// Whether the shape has each name free.
fn each_free(m: &Model, shape: &Shape, items: &[Named]) -> bool
    requires { IsTrue (has_types m.now shape.now) }
    ensures { result ≡ list_all (λ x. spec.is_free m.now shape.now x.name) items.now }
{
    items.iter().all(|item| is_free(m, shape, &item.name))
}

/// Whether the shape has all names of a computation free.
fn are_free(m: &Model, shape: &Shape, items: &[Named]) -> bool
    requires { IsTrue (has_types m.now shape.now) }
    ensures { result ≡ list_all (λ x. spec.is_free m.now shape.now x.name) (map named_of items.now) }
{
    each_free(m, shape, items)
}

/// Whether a computation's columns may stand beside those of the shape.
fn may_stand(m: &Model, shape: &Shape, columns: &ColumnList, items: &[Named]) -> bool
    requires { IsTrue (has_types m.now shape.now) }
    ensures { result ≡ (is_nonempty columns.now && spec.columns_differ columns.now && list_all (λ x. spec.is_free m.now shape.now x.name) (map named_of items.now)) }
{
    !columns.as_slice().is_empty() && columns.differ() && are_free(m, shape, items)
}

/// The shape after a computation: the input's with the new columns.
pub(crate) fn compute_shape(
    alloc: Global,
    m: &Model,
    shape: Shape,
    items: &NamedList,
) -> Result<Option<Shape>, AllocError>
    requires { IsTrue (has_types m.now shape) }
    ensures { IfOk result (λ o. o ≡ spec.compute_shape m.now shape (map named_of items.now)) }
{
    let items = items.as_slice();
    let columns = match named_columns(alloc, m, &shape, items)? {
        Some(columns) => columns,
        None => return Ok(None),
    };
    if may_stand(m, &shape, &columns, items) {
        Ok(Some(with_more(shape, columns)?))
    } else {
        Ok(None)
    }
}

// ---- aggregate

/// The column of an item of an aggregation.
fn item_column(
    alloc: Global,
    m: &Model,
    c: &Customs,
    shape: &Shape,
    item: &AggItem,
) -> Result<Option<ColumnShape>, AllocError>
    requires types { IsTrue (has_types m.now shape.now) }
    requires customs { AreTypedOver m.now c.now }
    ensures { IfOk result (λ o. o ≡ spec.item_column m.now (readings c.now) shape.now (agg_of item.now)) }
{
    match item {
        AggItem::Count(name) => Ok(Some(new_column(alloc, name, EdmType::Int, false)?)),
        AggItem::Standard(e, method, name) => { standard_column(alloc, m, shape, e, *method, name) }
        AggItem::Custom(custom, name) => custom_column(alloc, m, c, shape, custom, name),
    }
}

/// The column of a standard method over an expression.
fn standard_column(
    alloc: Global,
    m: &Model,
    shape: &Shape,
    e: &Expr,
    method: Method,
    name: &Name,
) -> Result<Option<ColumnShape>, AllocError>
    requires { IsTrue (has_types m.now shape.now) }
    ensures { IfOk result (λ o. o ≡ steps.standard_column m.now shape.now (expr_of e.now) method name.now) }
{
    let kind = match expr_kind(m, shape, e) {
        Some(kind) => kind,
        None => return Ok(None),
    };
    match method_kind(method, kind) {
        Some(kind) => {
            let risky = is_sum(method) || !is_sure(m, shape, e);
            Ok(Some(new_column(alloc, name, kind, risky)?))
        }
        None => Ok(None),
    }
}

/// The column of a custom aggregate.
fn custom_column(
    alloc: Global,
    m: &Model,
    c: &Customs,
    shape: &Shape,
    custom: &Name,
    name: &Name,
) -> Result<Option<ColumnShape>, AllocError>
    requires types { IsTrue (has_types m.now shape.now) }
    requires customs { AreTypedOver m.now c.now }
    ensures { IfOk result (λ o. o ≡ steps.custom_column m.now (readings c.now) shape.now custom.now name.now) }
{
    let of = match root_type(m, shape) {
        Some(of) => of,
        None => return Ok(None),
    };
    match c.named(of, custom) {
        Some(custom) => Ok(Some(new_column(alloc, name, custom.kind, custom.risky)?)),
        None => Ok(None),
    }
}

/// The columns of an aggregation, where each item has one.
fn item_columns(
    alloc: Global,
    m: &Model,
    c: &Customs,
    shape: &Shape,
    items: &[AggItem],
) -> Result<Option<ColumnList>, AllocError>
    requires types { IsTrue (has_types m.now shape.now) }
    requires customs { AreTypedOver m.now c.now }
    ensures { IfOk result (λ o. o ≡ all_some (map (spec.item_column m.now (readings c.now) shape.now) (map agg_of items.now))) }
{
    let mut columns = ColumnList::empty(alloc);
    for item in items {
        match item_column(alloc, m, c, shape, item)? {
            Some(column) => columns = columns.with(column)?,
            None => return Ok(None),
        }
    }
    Ok(Some(columns))
}

/// Whether an aggregation may give the columns.
fn may_stand_alone(columns: &ColumnList) -> bool
    ensures { result ≡ (is_nonempty columns.now && spec.columns_differ columns.now) }
{
    !columns.as_slice().is_empty() && columns.differ()
}

/// The shape after an aggregation: its columns alone.
pub(crate) fn aggregate_shape(
    alloc: Global,
    m: &Model,
    c: &Customs,
    shape: &Shape,
    items: &AggList,
) -> Result<Option<Shape>, AllocError>
    requires types { IsTrue (has_types m.now shape.now) }
    requires customs { AreTypedOver m.now c.now }
    ensures { IfOk result (λ o. o ≡ spec.aggregate_shape m.now (readings c.now) shape.now (map agg_of items.now)) }
{
    match item_columns(alloc, m, c, shape, items.as_slice())? {
        Some(columns) => {
            if may_stand_alone(&columns) {
                Ok(Some(bare_shape(alloc, columns)))
            } else {
                Ok(None)
            }
        }
        None => Ok(None),
    }
}

// ---- orders and selections

/// Whether each expression of an order has a typing.
pub(crate) fn order_typed(m: &Model, shape: &Shape, items: &[OrderItem]) -> bool
    requires { IsTrue (has_types m.now shape.now) }
    ensures { result ≡ list_all (λ x. spec.is_typed m.now shape.now x.expr) (map item_of items.now) }
{
    each_typed(m, shape, items)
}

/// Whether each item has a typing.
fn each_typed(m: &Model, shape: &Shape, items: &[OrderItem]) -> bool
    requires { IsTrue (has_types m.now shape.now) }
    ensures { result ≡ list_all (λ x. spec.is_typed m.now shape.now (expr_of x.expr)) items.now }
{
    items.iter().all(|item| is_typed(m, shape, &item.expr))
}

/// Whether each expression of an order is sure.
pub(crate) fn order_sure(m: &Model, shape: &Shape, items: &[OrderItem]) -> bool
    requires { IsTrue (has_types m.now shape.now) }
    ensures { result ≡ spec.order_sure m.now shape.now (map item_of items.now) }
{
    each_sure(m, shape, items)
}

/// Whether each item is sure.
fn each_sure(m: &Model, shape: &Shape, items: &[OrderItem]) -> bool
    requires { IsTrue (has_types m.now shape.now) }
    ensures { result ≡ list_all (λ x. spec.is_sure m.now shape.now (expr_of x.expr)) items.now }
{
    items.iter().all(|item| is_sure(m, shape, &item.expr))
}

/// Whether a number has no sign, and a decimal a digit after its point.
fn is_unsigned(number: &Number) -> bool
    ensures { result ≡ steps.is_number_literal (number_literal_of number.now) }
{
    match number {
        Number::Int(n) => *n >= 0,
        Number::Dec(d) => d.mantissa() >= 0 && d.scale() >= 1,
    }
}

/// Whether a selection has a typing.
pub(crate) fn top_typed(m: &Model, shape: &Shape, top: &TopStep) -> bool
    requires { IsTrue (has_types m.now shape.now) }
    ensures { result ≡ spec.top_typed m.now shape.now (top_of top.now).limit (top_of top.now).expr }
{
    match &top.limit {
        Limit::Count(n) => is_count(*n) && is_typed(m, shape, &top.expr),
        Limit::Sum(number) => is_unsigned(number) && is_number(m, shape, &top.expr),
        Limit::Percent(p) => *p <= 100 && is_number(m, shape, &top.expr),
    }
}

// ---- hierarchies

/// The nodes of a hierarchy: their entity type, and the type of its key.
#[derive(Clone, Copy, Debug, Drop)]
pub struct Nodes {
    pub of: TypeId,
    pub kind: EdmType,
}

/// The nodes of the hierarchy that is named in a pipeline.
pub fn nodes_of(m: &Model, hier: &HierName) -> Option<Nodes>
    ensures value { option_map nodes_pair result ≡ steps.nodes_at m.now (hier_of hier.now) }
    ensures there { IfSome result (λ x. IsType m.now x.of) }
{
    let set = match m.set_named(hier.set.text()) {
        Some(set) => set,
        None => return None,
    };
    match m.hier_named(set, hier.qualifier.text()) {
        Some(_) => {
            let of = m.set_type(set);
            Some(Nodes {
                of,
                kind: m.prop_type(m.key_of(of)),
            })
        }
        None => None,
    }
}

/// Whether the path has the type of the hierarchy's node property.
pub(crate) fn is_node_path(m: &Model, shape: &Shape, nodes: &Nodes, path: &Path) -> bool
    requires { IsTrue (has_types m.now shape.now) }
    ensures { result ≡ steps.leads_to_nodes m.now shape.now nodes.now.kind path.now }
{
    match path_kind(m, shape, path) {
        Some(kind) => nodes.kind.same_kind(kind),
        None => false,
    }
}

/// Whether a walk over a hierarchy has a typing on the shape of its nodes.
pub(crate) fn walk_typed(alloc: Global, m: &Model, nodes: &Nodes, walk: &TraverseStep) -> bool
    requires { IsType m.now nodes.now.of }
    ensures { result ≡ list_all (λ x. spec.is_typed m.now (set_shape nodes.now.of) x.expr) (map item_of walk.now.items) }
{
    let shape = set_shape(alloc, nodes.of);
    order_typed(m, &shape, walk.items.as_slice())
}

/// Whether the order of a walk over a hierarchy is sure on the shape of its nodes.
pub(crate) fn walk_sure(alloc: Global, m: &Model, nodes: &Nodes, walk: &TraverseStep) -> bool
    requires { IsType m.now nodes.now.of }
    ensures { result ≡ spec.order_sure m.now (set_shape nodes.now.of) (map item_of walk.now.items) }
{
    let shape = set_shape(alloc, nodes.of);
    order_sure(m, &shape, walk.items.as_slice())
}
