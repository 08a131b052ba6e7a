//! The places of values in the order of an item. No row is needed.
ghost use Rattle.std.specs.Prelude.{◌≡◌, [], ◌∷◌, List, IfOk, IsTrue, length, map, nat_lt};
ghost use Rattle.std.specs.List.{list_all};
ghost use Rattle.edm_values.specs.Lists.{sorted};
ghost use Rattle.edm_data.specs.Worlds.{World};
ghost use Rattle.apply_ast.specs.Views.{item_of};
ghost use Rattle.apply_meaning.specs.Instances.{Instance};
ghost use Rattle.apply_meaning.specs.Meaning.{order_before, order_values, refused_at_beyond, values as values_on};
ghost use Rattle.row_orders.specs.Orders as spec;
ghost use Rattle.row_orders.specs.Orders.{first_value};
ghost use Rattle.row_orders.specs.Places.{ArePlacesInOrder, GivesOrder};

use crate::sort_keys::{Numbered, SortKey, decimal_keys, int_keys, seen_keys};
use apply_ast::OrderItem;
use apply_meaning::RunRefused;
use edm_values::Value;
use std::alloc::{AllocError, Global};
use std::cmp::Ordering;

/// The places alone.
fn places_alone<K: SortKey>(alloc: Global, keys: &[Numbered<K>]) -> Result<Vec<usize>, AllocError>
    ensures { IfOk result (λ places. places.items ≡ map (λ x. x.1) keys.now) }
{
    let mut places = Vec::with_capacity(alloc, keys.len())?;
    for one in keys {
        places.push(one.place)?;
    }
    Ok(places)
}

/// The places of the values in the order of an item; those that tie stand as before.
fn places_in_order<K: SortKey>(
    alloc: Global,
    item: &OrderItem,
    keys: Vec<Numbered<K>>,
) -> Result<Vec<usize>, AllocError>
    ensures { IfOk result (λ places. ArePlacesInOrder (item_of item.now) keys.items places.items) }
{
    let mut keys = keys;
    keys.sort_by(
        |a: &Numbered<K>, b: &Numbered<K>| -> Ordering
            ensures { result ≡ spec.item_cmp item.entry.now.desc (first_value (a.now).0) (first_value (b.now).0) }
        { a.key.order(&b.key, item.desc) },
    )?;
    Ok(places_alone(alloc, keys.as_slice())?)
}

/// The places of instances in the order of an item that has these values on them; those that tie stand as before. Integers alone,
/// and decimals alone, are sorted as such.
pub fn item_places(
    alloc: Global,
    item: &OrderItem,
    values: &[Value],
) -> Result<Vec<usize>, RunRefused>
    ensures value { (w : World) (l : List Instance) → values.now ≡ values_on w (item_of item.now).expr l
        → let xs = item_of item.now ∷ [] in GivesOrder result l (refused_at_beyond (order_values w xs l) (sorted (order_before w xs) l)) }
    ensures within { IfOk result (λ places. IsTrue (list_all (λ k. nat_lt k (length values.now)) places.items)) }
{
    if let Some(keys) = int_keys(alloc, values)? {
        return Ok(places_in_order(alloc, item, keys)?);
    }
    if let Some(keys) = decimal_keys(alloc, values)? {
        return Ok(places_in_order(alloc, item, keys)?);
    }
    let keys = seen_keys(alloc, values)?;
    Ok(places_in_order(alloc, item, keys)?)
}
