//! Orders: rows sorted by the values of items. No row is made.
//!
//! The rows are sorted by one item after another, from the last to the first. A sort leaves rows that tie as they stand, so
//! those that tie by an item are in the order of the items behind it.
ghost use Rattle.std.specs.Prelude.{◌≡◌, [], ◌∷◌, IsTrue, IfOk, map};
ghost use Rattle.edm_values.specs.Lists.{sorted};
ghost use Rattle.apply_ast.specs.Views.{item_of};
ghost use Rattle.apply_meaning.specs.Meaning.{order_before, order_values, refused_at_beyond};
ghost use Rattle.row_orders.specs.Orders as spec;
ghost use Rattle.row_orders.specs.Orders.{GivesRanked, first_value};
ghost use Rattle.apply_meaning.specs.Running.{Gives, all_of};

use crate::values::{item_order, item_value};
use apply_ast::{OrderItem, OrderList};
use apply_meaning::{Row, RunRefused};
use edm_data::Data;
use edm_values::Value;
use std::alloc::{AllocError, Global};
use std::cmp::Ordering;
use std::marker::Model;

/// A row with the value of an item on it.
#[derive(Drop)]
struct Ranked {
    value: Value,
    row: Row,
}

impl Model for Ranked {
    ghost use Rattle.std.specs.Prelude.{[], ◌∷◌};
    ghost use Rattle.row_orders.specs.Orders.{RankedRow};

    ghost Value = { RankedRow };

    ghost view = { λ r. (r.value ∷ [], r.row) };
}

/// The rows with the value of an item on them.
fn ranked_rows(
    alloc: Global,
    store: &Data,
    item: &OrderItem,
    rows: Vec<Row>,
) -> Result<Vec<Ranked>, RunRefused>
    requires { IsTrue (all_of store.now rows.items) }
    ensures { GivesRanked result store.now (item_of item.now ∷ []) rows.items }
{
    let mut ranked = Vec::with_capacity(alloc, rows.len())?;
    for row in rows {
        let value = item_value(alloc, store, item, &row)?;
        ranked.push(Ranked { value, row })?;
    }
    Ok(ranked)
}

/// The rows alone.
fn rows_of(alloc: Global, ranked: Vec<Ranked>) -> Result<Vec<Row>, AllocError>
    ensures { IfOk result (λ rows. rows.items ≡ map (λ x. x.1) ranked.items) }
{
    let mut rows = Vec::with_capacity(alloc, ranked.len())?;
    for one in ranked {
        rows.push(one.row)?;
    }
    Ok(rows)
}

/// The rows in the order of one item; those that tie stand as before.
fn sorted_by_item(
    alloc: Global,
    store: &Data,
    item: &OrderItem,
    rows: Vec<Row>,
) -> Result<Vec<Row>, RunRefused>
    requires { IsTrue (all_of store.now rows.items) }
    ensures { let xs = item_of item.now ∷ [] in Gives result (refused_at_beyond (order_values store.now xs rows.items) (sorted (order_before store.now xs) rows.items)) }
{
    let mut ranked = ranked_rows(alloc, store, item, rows)?;
    ranked.sort_by(
        |a: &Ranked, b: &Ranked| -> Ordering
            ensures { result ≡ spec.item_cmp item.entry.now.desc (first_value (a.now).0) (first_value (b.now).0) }
        { item_order(item, a.value.seen(), b.value.seen()) },
    )?;
    Ok(rows_of(alloc, ranked)?)
}

/// The rows in the order of the items, from left to right; those that tie stand as before.
pub fn order_rows(
    alloc: Global,
    store: &Data,
    items: &OrderList,
    mut rows: Vec<Row>,
) -> Result<Vec<Row>, RunRefused>
    requires { IsTrue (all_of store.now rows.items) }
    ensures value { let xs = map item_of items.now in Gives result (refused_at_beyond (order_values store.now xs rows.items) (sorted (order_before store.now xs) rows.items)) }
{
    let all = items.as_slice();
    for k in 0..all.len() {
        let last = all.len() - 1 - k;
        rows = sorted_by_item(alloc, store, &all[last], rows)?;
    }
    Ok(rows)
}
