//! Joins and concatenation of lists of rows.
//!
//! `related_rows` makes the rows of the entities that a row's entity is related to. `join` puts each row beside each row of the
//! list that belongs to it, under an alias; `outerjoin` keeps a row whose list is empty once, with the alias bound to none.
//! `concat` puts lists one after the other. `paths` has paths under an alias.
//!
//! The crate stands on `apply_meaning` for rows and the meaning of joins, on `apply_ast` for names and paths, and on `edm_data`
//! and `edm_model` for related entities, which come from the places that the data keeps: nothing is searched.
//!
//! It promises that the rows are those of the definitions, in their order, each made once and counted as one step.
#![tactic(auto)]

mod concats;
mod joins;
mod paths;
mod related;

pub use concats::concat;
pub use joins::{join, outerjoin};
pub use related::related_rows;
