//! Partial aggregates of lists of values, and tables of keys.
//!
//! `SumOf`, `MinOf`, `MaxOf`, `DistinctOf` and `CountOf` are each a `Partial` over values: made for a type by `new`, given one
//! value at a time or those of a later part, and ended by `finish`. `aggregate_values` folds a list of values by the partial of
//! a method, and `aggregate_places` those of a list that stand at some places, where they stand (`placed_folds`). The first
//! three are a `SeenPartial` each, which takes a value also where it is borrowed, and `Aggregated`: what each has in the end is
//! the aggregate by its method (`aggregated`). `KeyPlaces` is
//! a `Partial` over key lists with their hashes, which are borrowed from lists or from columns (`hashed`): by these it finds a key
//! (`key_maps`). `KeyTable` is the same over plain key lists. `column_groups` folds the key lists that stand in columns, each of
//! which is read when its place is added (`placed_keys`); their numbers are worked out before, by several threads
//! (`column_numbers`). `groups` and `into_groups` give its `Groups`, `Groups::whole` has
//! those of key lists without values, and `by_front` and `by_fronts` those by the first values of their keys (`fronts`), which
//! share the keys. `DistinctValues` is to `DistinctOf` what `KeyPlaces` is to `KeyTable`. The hashes of a table begin with a
//! `Seed` of the list that it is made for, so that no list of keys can be chosen whose hashes are all one (`seeds`). `sameness`
//! tells whether values are the same, and `values` has what is asked of a single value, and copies of values.
//!
//! The crate stands on `par_stages` and `seen_partials` for folds, on `apply_meaning` for the meaning of aggregates and of groups, and on
//! `edm_values` for values and their order.
//!
//! It promises that `finish` is the aggregate of the list that the partial stands for (`specs/Partials`), and that `groups`
//! has the distinct keys in order of first appearance, each with its places in the order of the list (`specs/KeyTables`), as
//! `by_front` and `by_fronts` have (`specs/Fronts`). The sum is kept exactly, and tested once against the range of its type, at `finish`. A
//! partial of fewer than 2^63 items keeps its sum in 128 bits.
#![tactic(auto)]

mod aggregated;
mod column_numbers;
mod counts;
mod distincts;
mod extremes;
mod folds;
mod fronts;
mod groups;
mod hashed;
mod key_maps;
mod key_places;
mod key_steps;
mod key_tables;
mod placed_folds;
mod placed_keys;
mod sameness;
mod seeds;
mod sums;
mod values;

pub use aggregated::Aggregated;
pub use counts::CountOf;
pub use distincts::{DistinctOf, DistinctValues};
pub use extremes::{MaxOf, MinOf};
pub use folds::{aggregate_values, kind_of};
pub use groups::Groups;
pub use hashed::{HashedKey, HashedValue, hashed_keys, hashed_values};
pub use key_places::KeyPlaces;
pub use key_tables::KeyTable;
pub use placed_folds::aggregate_places;
pub use placed_keys::column_groups;
pub use seeds::Seed;
pub use sums::SumOf;
pub use values::copies;
