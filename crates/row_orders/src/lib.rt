//! Orders of rows by the values of items.
//!
//! `order_rows` sorts rows by the values of the items of an `orderby`, item by item, and makes no row. `row_ranks` tells of
//! each row how many stand before it by the items, which is what the siblings of a hierarchy are ordered by. `values` has the
//! values of the items on a row, each worked out once, and their order; `orders` sorts the rows with their values, and `ranks`
//! sorts the places of the rows and goes through them once. `item_places` has the places of values in the order of an item
//! (`places`); integers and decimals are compared as such there, and not as values of any kind (`sort_keys`).
//!
//! The crate stands on `apply_meaning` for rows, the values of expressions and the definition of the order, on `apply_ast` for
//! items, on `edm_data` for the data, and on `edm_values` for the order of values.
//!
//! It promises that the rows stand in the order of the definition, those that tie as before, and that the ranks are those of the
//! definition, where rows that tie have one rank. `Range` comes exactly where a value of an item is past its range.
#![tactic(auto)]

mod orders;
mod places;
mod ranks;
mod sort_keys;
mod values;

pub use orders::order_rows;
pub use places::item_places;
pub use ranks::row_ranks;
