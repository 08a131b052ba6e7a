//! What stands in the parentheses of steps and holds no pipeline.
ghost use Rattle.std.specs.Prelude.{◌≡◌};

use crate::expressions::Expr;
use crate::names::{Name, Path};
use edm_values::{Dec, Method};
use std::marker::Model;

/// An expression with the name that it gets.
#[derive(Drop)]
pub struct Named {
    pub expr: Expr,
    pub name: Name,
}

/// The items of a `compute`.
#[derive(Drop)]
pub struct NamedList {
    pub(crate) all: Vec<Named>,
}

impl Model for NamedList {
    ghost use Rattle.std.specs.Prelude.{List};
    ghost use Rattle.std.specs.Coded.{codes};
    ghost use Rattle.apply_ast.specs.declared.items.Named.{Named};
    ghost use Rattle.apply_ast.specs.contracts.expressions.Expr as of_expr;

    ghost Value = { List Named };

    ghost coded = { Prim.hlevel (codes, of_expr.the_row.coded) };

    ghost view = { λ l. l.all.items };
}

impl NamedList {
    /// The list of these items.
    pub fn new(items: Vec<Named>) -> NamedList
        ensures value { result ≡ items.items }
    {
        NamedList { all: items }
    }

    /// The items in their order.
    pub fn as_slice(&self) -> &[Named]
        ensures value { result.now ≡ self.now }
    {
        &self.all
    }

    /// The items that the list was made of.
    pub fn into_vec(self) -> Vec<Named>
        ensures value { result.items ≡ self }
    {
        self.all
    }
}

/// An item of an order: ascending, or descending where `desc` is true.
#[derive(Drop)]
pub struct OrderItem {
    pub expr: Expr,
    pub desc: bool,
}

/// The items of an `orderby` or a `traverse`, from the first that decides to the last.
#[derive(Drop)]
pub struct OrderList {
    pub(crate) all: Vec<OrderItem>,
}

impl Model for OrderList {
    ghost use Rattle.std.specs.Prelude.{List};
    ghost use Rattle.std.specs.Coded.{codes};
    ghost use Rattle.apply_ast.specs.declared.items.OrderItem.{OrderItem};
    ghost use Rattle.apply_ast.specs.contracts.expressions.Expr as of_expr;

    ghost Value = { List OrderItem };

    ghost coded = { Prim.hlevel (codes, of_expr.the_row.coded) };

    ghost view = { λ l. l.all.items };
}

impl OrderList {
    /// The list of these items.
    pub fn new(items: Vec<OrderItem>) -> OrderList
        ensures value { result ≡ items.items }
    {
        OrderList { all: items }
    }

    /// The items in their order.
    pub fn as_slice(&self) -> &[OrderItem]
        ensures value { result.now ≡ self.now }
    {
        &self.all
    }

    /// The items that the list was made of.
    pub fn into_vec(self) -> Vec<OrderItem>
        ensures value { result.items ≡ self }
    {
        self.all
    }
}

/// An item of an aggregation. The last name is the result's; a custom aggregate without a name of its own has the
/// aggregate's name twice.
#[derive(Drop)]
pub enum AggItem {
    Count(Name),
    Standard(Expr, Method, Name),
    Custom(Name, Name),
}

/// The items of an `aggregate`.
#[derive(Drop)]
pub struct AggList {
    pub(crate) all: Vec<AggItem>,
}

impl Model for AggList {
    ghost use Rattle.std.specs.Prelude.{List};
    ghost use Rattle.std.specs.Coded.{codes};
    ghost use Rattle.apply_ast.specs.declared.items.AggItem.{AggItem};
    ghost use Rattle.apply_ast.specs.contracts.expressions.Expr as of_expr;

    ghost Value = { List AggItem };

    ghost coded = { Prim.hlevel (codes, of_expr.the_row.coded) };

    ghost view = { λ l. l.all.items };
}

impl AggList {
    /// The list of these items.
    pub fn new(items: Vec<AggItem>) -> AggList
        ensures value { result ≡ items.items }
    {
        AggList { all: items }
    }

    /// The items in their order.
    pub fn as_slice(&self) -> &[AggItem]
        ensures value { result.now ≡ self.now }
    {
        &self.all
    }

    /// The items that the list was made of.
    pub fn into_vec(self) -> Vec<AggItem>
        ensures value { result.items ≡ self }
    {
        self.all
    }
}

/// A recursive hierarchy: the entity set of its nodes and the qualifier of its annotation (Data Aggregation 4.0,
/// section 5.5).
#[derive(Debug, Drop)]
pub struct HierName {
    pub set: Name,
    pub qualifier: Name,
}

/// A literal number.
#[derive(Debug, Drop)]
pub enum Number {
    Int(i64),
    Dec(Dec),
}

/// What a selection from the top or the bottom reaches for: a number of instances, a sum, or a percentage of the sum.
#[derive(Debug, Drop)]
pub enum Limit {
    Count(u64),
    Sum(Number),
    Percent(u32),
}

/// A selection of the instances with the greatest values of an expression, or the least where `bottom` is true.
#[derive(Drop)]
pub struct TopStep {
    pub bottom: bool,
    pub limit: Limit,
    pub expr: Expr,
}

/// A walk over a hierarchy: in preorder, or in postorder where `post` is true, with siblings in the order of the items.
#[derive(Drop)]
pub struct TraverseStep {
    pub hier: HierName,
    pub path: Path,
    pub post: bool,
    pub items: OrderList,
}
