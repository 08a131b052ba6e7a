//! The values of items on a row, and their order.
ghost use Rattle.std.specs.Prelude.{◌≡◌, [], ◌∷◌, IsTrue, map, drop};
ghost use Rattle.edm_values.specs.Values.{seen_value};
ghost use Rattle.apply_ast.specs.Views.{item_of};
ghost use Rattle.apply_meaning.specs.RowViews.{is_of};
ghost use Rattle.row_orders.specs.Orders as spec;
ghost use Rattle.row_orders.specs.Orders.{GivesValue, GivesValues, first_value};

use apply_ast::OrderItem;
use apply_meaning::{Row, RunRefused, eval};
use edm_data::Data;
use edm_values::{Seen, Value, order};
use std::alloc::Global;
use std::cmp::Ordering;

/// The values of the items on a row, each evaluated once.
pub(crate) fn item_values(
    alloc: Global,
    store: &Data,
    items: &[OrderItem],
    row: &Row,
) -> Result<Vec<Value>, RunRefused>
    requires { IsTrue (is_of store.now row.now) }
    ensures { GivesValues result (spec.item_values store.now (map item_of items.now) row.now) }
{
    let mut values = Vec::with_capacity(alloc, items.len())?;
    for item in items {
        match eval(store, row, &item.expr) {
            Seen::Beyond => return Err(RunRefused::Range),
            value => values.push(value.own(alloc)?)?,
        }
    }
    Ok(values)
}

/// The value of an item on a row.
pub(crate) fn item_value(
    alloc: Global,
    store: &Data,
    item: &OrderItem,
    row: &Row,
) -> Result<Value, RunRefused>
    requires { IsTrue (is_of store.now row.now) }
    ensures { GivesValue result (spec.item_values store.now (item_of item.now ∷ []) row.now) }
{
    match eval(store, row, &item.expr) {
        Seen::Beyond => Err(RunRefused::Range),
        value => Ok(value.own(alloc)?),
    }
}

/// The value at a place; null past the end.
fn value_at(values: &[Value], k: usize) -> Seen<'_>
    ensures { seen_value result ≡ first_value (drop k values.now) }
{
    match values.get(k) {
        Some(value) => value.seen(),
        None => Seen::Null,
    }
}

/// The order of two values by an item.
pub(crate) fn item_order(item: &OrderItem, a: Seen<'_>, b: Seen<'_>) -> Ordering
    ensures { result ≡ spec.item_cmp item.now.desc (seen_value a.entry) (seen_value b.entry) }
{
    if item.desc { order(b, a) } else { order(a, b) }
}

/// The order of two lists of values by the items, from left to right.
pub(crate) fn values_order(items: &[OrderItem], a: &[Value], b: &[Value]) -> Ordering
    ensures { result ≡ spec.values_cmp (map item_of items.now) a.now b.now }
{
    for (k, item) in items.iter().enumerate() {
        let found = item_order(item, value_at(a, k), value_at(b, k));
        if found.is_ne() {
            return found;
        }
    }
    Ordering::Equal
}
