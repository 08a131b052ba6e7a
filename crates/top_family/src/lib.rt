//! Selections from the top and the bottom of a list of values.
//!
//! `top_count`, `top_sum` and `top_percent` take the greatest values, `bottom_count`, `bottom_sum` and `bottom_percent` the
//! least: as many as a count says, or the fewest whose sum reaches a bound or a percentage of the sum of all. Each answers the
//! places of the values that it takes, in ascending order. `rankings` has the first places by rank, and puts those that are
//! taken in order; `numbers` has all places of numbers by rank, which one stable sort gives; `thresholds` turns a bound into one
//! number that a sum of mantissas is compared with; `selections` walks along the ranking once. `count_in_parts` is `top_count` or
//! `bottom_count` for several threads, each of which finds the first places of a part (`parts`).
//!
//! The crate stands on `edm_values` for values, their order and the definition of what is taken, and on `par_stages` for how many
//! threads a list is worth.
//!
//! It promises that the places are those of the definition: null ranks last in both directions, the earlier of two that tie
//! comes first, and all are taken where no part of the ranking is enough. `Range` comes exactly where a value is past its range.
#![tactic(auto)]

mod numbers;
mod parts;
mod rankings;
mod selections;
mod thresholds;

pub use edm_values::Refused as TopRefused;
pub use selections::{
    bottom_count, bottom_percent, bottom_sum, count_in_parts, top_count, top_percent, top_sum,
};
