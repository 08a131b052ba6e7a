//! Ranks: how many rows stand before each row by the values of items.
ghost use Rattle.std.specs.Prelude.{◌≡◌, ◌<◌, ◌^◌, IsTrue, IfOk, length, map, slice_index_or};
ghost use Rattle.std.specs.List.Sorted.{IsSortedBy};
ghost use Rattle.std.specs.Ordering.{is_eq};
ghost use Rattle.apply_ast.specs.Views.{item_of};
ghost use Rattle.apply_meaning.specs.Meaning.{order_values, refused_at_beyond};
ghost use Rattle.apply_meaning.specs.Running.{all_of};
ghost use Rattle.row_orders.specs.Orders.{RankedPlace, before, values_cmp};
ghost use Rattle.row_orders.specs.Ranks.{ArePlaces, GivesPlaced, GivesNumbers, GivesSorted, HaveRanks, IsFormerRank, rank_in, ranks};

use crate::values::{item_values, values_order};
use apply_ast::{OrderItem, OrderList};
use apply_meaning::{Row, RunRefused};
use edm_data::Data;
use edm_values::Value;
use std::alloc::{AllocError, Global};
use std::cmp::Ordering;
use std::marker::Model;

/// A row's place with the values of the items on the row.
#[derive(Drop)]
struct Placed {
    values: Vec<Value>,
    place: usize,
}

impl Model for Placed {
    ghost use Rattle.row_orders.specs.Orders.{RankedPlace};

    ghost Value = { RankedPlace };

    ghost view = { λ r. (r.values.items, r.place) };
}

/// The places of the rows with the values of the items on the rows.
fn placed_rows(
    alloc: Global,
    store: &Data,
    items: &[OrderItem],
    rows: &[Row],
) -> Result<Vec<Placed>, RunRefused>
    requires { IsTrue (all_of store.now rows.now) }
    ensures { GivesPlaced result store.now (map item_of items.now) rows.now }
{
    let mut placed = Vec::with_capacity(alloc, rows.len())?;
    for (place, row) in rows.iter().enumerate() {
        let values = item_values(alloc, store, items, row)?;
        placed.push(Placed { values, place })?;
    }
    Ok(placed)
}

/// The places of the rows in the order of the items, with the values of the items on the rows.
fn sorted_places(
    alloc: Global,
    store: &Data,
    items: &[OrderItem],
    rows: &[Row],
) -> Result<Vec<Placed>, RunRefused>
    requires { IsTrue (all_of store.now rows.now) }
    ensures { GivesSorted result store.now (map item_of items.now) rows.now }
{
    let mut placed = placed_rows(alloc, store, items, rows)?;
    placed.sort_by(
        |a: &Placed, b: &Placed| -> Ordering
            ensures { result ≡ values_cmp (map item_of items.entry.now) (a.now).0 (b.now).0 }
        { values_order(items, a.values.as_slice(), b.values.as_slice()) },
    )?;
    Ok(placed)
}

/// Whether the values at two places tie.
fn ties(items: &[OrderItem], a: &Placed, b: &Placed) -> bool
    ensures { result ≡ is_eq (values_cmp (map item_of items.now) (a.now).0 (b.now).0) }
{
    values_order(items, a.values.as_slice(), b.values.as_slice()).is_eq()
}

/// The rank of the place at `k` of a sorted list: `k` where its values differ from the former one's, else the former one's rank.
fn next_rank(items: &[OrderItem], sorted: &[Placed], k: usize, former: u32) -> u32
    requires within { k < length sorted.now }
    requires small { length sorted.now < 2 ^ 32 }
    requires order { IsSortedBy (before (map item_of items.now)) sorted.now }
    requires former { IsFormerRank (before (map item_of items.now)) sorted.now k former }
    ensures { (d : RankedPlace) → result ≡ rank_in (before (map item_of items.now)) sorted.now (slice_index_or sorted.now k d) }
{
    if k == 0 {
        return 0;
    }
    if ties(items, &sorted[k - 1], &sorted[k]) {
        return former;
    }
    k as u32
}

/// The rank of each place of a sorted list, at that place.
fn sorted_ranks(
    alloc: Global,
    items: &[OrderItem],
    sorted: &[Placed],
) -> Result<Vec<u32>, AllocError>
    requires small { length sorted.now < 2 ^ 32 }
    requires places { ArePlaces sorted.now }
    requires order { IsSortedBy (before (map item_of items.now)) sorted.now }
    ensures { IfOk result (λ found. HaveRanks (before (map item_of items.now)) sorted.now found.items (length sorted.now)) }
{
    let mut ranks = vec![in alloc; 0; sorted.len()]?;
    let mut rank = 0;
    for (k, one) in sorted.iter().enumerate() {
        rank = next_rank(items, sorted, k, rank);
        ranks[one.place] = rank;
    }
    Ok(ranks)
}

/// Each row's rank: how many of the rows stand before it by the items, from left to right. Rows that tie have one rank.
pub fn row_ranks(
    alloc: Global,
    store: &Data,
    items: &OrderList,
    rows: &[Row],
) -> Result<Vec<u32>, RunRefused>
    requires of { IsTrue (all_of store.now rows.now) }
    requires small { length rows.now < 2 ^ 32 }
    ensures value { let xs = map item_of items.now in GivesNumbers result (refused_at_beyond (order_values store.now xs rows.now) (ranks store.now xs rows.now)) }
{
    let items = items.as_slice();
    let sorted = sorted_places(alloc, store, items, rows)?;
    Ok(sorted_ranks(alloc, items, sorted.as_slice())?)
}
