//! The model that a model file states, and what is read of it.
//!
//! [`read_model`] reads a model file, and [`Model`] has what it states: entity types with their properties, navigation
//! properties, hierarchies and custom aggregates, and the entity sets of these types. The modules: `read` reads a file,
//! `build` makes the parts of the model of an accepted tree; `parts` has the types that a model is made of and `ids` the
//! names by which callers speak of them; `id_lists` makes the lists of ids that a model keeps; `model` has the look-ups and
//! the readers.
//!
//! The crate stands on `edm_schema`, which lists the members of a JSON tree and says whether it keeps every rule of model
//! files, on `edm_values` for types, methods, texts and simple identifiers, and on `serde_json` for the JSON tree.
//! `read_model` is exact: its `Ok` is the model that the definitions in `specs/` give of the file's bytes, each refusal
//! comes exactly where the file has that fault, and only want of memory may come in place of either. The contract of each
//! look-up and each reader says which value it gives; what holds of every accepted model is `IsSound`. A name is found by
//! a binary search in a list in byte order of names, and neither look-ups nor readers take memory.
#![tactic(auto)]

mod build;
mod id_lists;
mod ids;
mod model;
mod parts;
mod read;

pub use edm_schema::is_annotation;
pub use edm_values::Method;
pub use ids::{CustomId, HierId, NavId, PropId, SetId, TypeId};
pub use model::Model;
pub use parts::{Custom, Texts};
pub use read::{MODEL_LIMIT, ModelRefused, read_model};
