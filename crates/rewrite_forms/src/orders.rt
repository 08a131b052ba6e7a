//! Orders by sure expressions.
ghost use Rattle.std.specs.Prelude.{◌≡◌, IsTrue, map};
ghost use Rattle.std.specs.List.{list_all};
ghost use Rattle.apply_ast.specs.Views.{expr_of, item_of};
ghost use Rattle.context_typing.specs.ShapeTypes.{has_types};
ghost use Rattle.context_typing.specs.Typing as typing;

use apply_ast::OrderItem;
use context_typing::{Shape, is_sure};
use edm_model::Model;

/// Whether all items of an order are sure.
pub fn order_sure(m: &Model, shape: &Shape, items: &[OrderItem]) -> bool
    requires { IsTrue (has_types m.now shape.now) }
    ensures value { result ≡ typing.order_sure m.now shape.now (map item_of items.now) }
{
    each_sure(m, shape, items)
}

/// Whether the expression of each item is sure.
fn each_sure(m: &Model, shape: &Shape, items: &[OrderItem]) -> bool
    requires { IsTrue (has_types m.now shape.now) }
    ensures { result ≡ list_all (λ x. typing.is_sure m.now shape.now (expr_of x.expr)) items.now }
{
    items.iter().all(|item| is_sure(m, shape, &item.expr))
}
