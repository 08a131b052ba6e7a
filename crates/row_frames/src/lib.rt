//! Frames: lists of instances that are kept by columns, so that no row is made of an instance that is only read.
//!
//! A `Frame` is tables of rows of one layout and the rows of these that are picked, in their order (`tables`, `picks`): a list of them,
//! or a run of rows of the first table, of which no list is kept. What goes over a run makes a list of a block at a time. `of_set`
//! makes one of a set's entities, `of_first` of the first of them, `of_entities` of those at some places, `filter` (`kept`), `skip`, `top` and `at` keep some of its rows, and `picked` has some of a frame that is kept, `values` has the
//! values of an expression (`values`), `key_lists` those of key paths (`keys`), `root` the entity of a row, `root_places` the places of these entities, of which none is kept (`root_places`), `own_property` the property of these entities that a path is, and `property_in_set` that of the entities of a set of which no frame is made (`own`), and `into_rows` makes
//! the rows at last. `shown` has the instances as they stand, one at a time, of which no row is made (`shown`). `seen_values` and `key_columns` have values that borrow their texts, the latter a list for each path.
//! `values_at`, `key_lists_at`, `key_columns_at` and `rows_at` have the same of the rows at some places (`placed`). `compute` puts
//! new columns behind those of a table (`computed`), which first is made of the rows that are picked, where these are not all in
//! their order (`gathered`). `of_columns` makes a frame of lists of values, and `extend` puts such lists behind the columns of one (`columned`). `of_related` makes a frame of what a navigation property relates an entity to, `places_in` has the places
//! of instances that are entities of one set (`related`), and `join` puts each instance beside such entities, under an alias: the
//! rows are repeated by their places, and the alias is a prefix with a list of places (`joins`). `copy` has the same tables, with the
//! same lists, and `append` puts one frame behind another (`joined`). `readers` binds an expression or a path to each table once, so that its names are looked up once a table and not
//! once a row, also those of navigation properties (`hops`); `lookups` finds a path's value name by name where that cannot be. A
//! property of a set's entities, of what these refer to by one navigation property, or of the entities at a prefix, is bound to its
//! values, so that set and column are not looked up once a row either; where each value of a property of these entities is an integer,
//! or each a decimal, to the slice of these, which a fold or a list of values goes through. What is bound is read in the rows that are picked by the thread that calls, or in
//! parts of them by threads (`seen`, `kept`, `parts`), which `rayon` starts: threads read the data, the tables and what is bound, and write
//! nothing that is shared. Where all rows are of one table, an expression with operators is worked out block by block (`blocks`):
//! the operands in some rows first, and then the operator on these. Values of a block that are all integers, decimals or Booleans are
//! kept as such: operators on these, beside an integer or between Booleans, are loops of their own (`typed_blocks`), which give up where a
//! result is past its range, and then the operator is applied value by value. A part of an expression whose only value beside literals
//! is a property of texts that the data keeps once each, of the entities of one table or of what these refer to, is worked out once for
//! each text where the texts are few beside the rows that are picked, and looked up in the rows (`told`). `reader` has the values of an
//! expression as a list of which none
//! is kept (`frame_readers`): one of them, or what a partial keeps of all, which are folded where they are read (`folded`).
//! `codes` has small numbers in place of the values of a path, where this is a property by which entities refer to others
//! (`references`): those of the places of what they refer to; or where it is one of texts that the data keeps once each, of the
//! entities of one table or of what these refer to (`text_codes`): those that the data gives the texts. They too are found in parts, by
//! threads (`code_parts`).
//!
//! The crate stands on `apply_meaning` for rows, the values of expressions and what a run returns, on `join_concat` for the meaning of joins, on `context_typing` and
//! `apply_ast` for paths and expressions, on `par_stages` and `seen_partials` for folds, on `value_codes` for numbers in place of values, and on `edm_data`, `edm_model` and
//! `edm_values` for the data.
//!
//! It promises that a frame is a list of instances, and that each call gives what its definition says of that list, for every number
//! of workers; a step is counted for each row that `into_rows` makes, and for nothing else.
#![tactic(auto)]

mod blocks;
mod code_parts;
mod codes;
mod columned;
mod computed;
mod folded;
mod frame_readers;
mod frames;
mod gathered;
mod hops;
mod joined;
mod joins;
mod kept;
mod keys;
mod lookups;
mod own;
mod parts;
mod picks;
mod placed;
mod readers;
mod references;
mod related;
mod root_places;
mod seen;
mod shown;
mod tables;
mod text_codes;
mod told;
mod typed_blocks;
mod values;

pub use frame_readers::FrameReader;
pub use frames::Frame;
pub use own::property_in_set;
pub use root_places::RootPlaces;
pub use shown::{FrameRow, FrameRows};
