//! The readings of a model's custom aggregates: the texts of their definitions as expressions and paths.
//!
//! `read_customs` reads the custom aggregates of a model in their order, up to the first whose texts are no expression or no
//! path. What it gives can be typed by `type_customs` of `context_typing`.
//!
//! The crate stands on `edm_model` for the custom aggregates, on `apply_grammar` for the reading of expressions and paths, on
//! `context_typing` and `apply_ast` for the type of readings, and on `edm_values` for texts.
//!
//! It promises that each reading is the only one of its texts, with the id of its custom aggregate, and that the next custom
//! aggregate has none (`specs/Readings`). Only want of memory is free.
#![tactic(auto)]

mod readings;

pub use readings::read_customs;
