//! Model files as JSON trees: their members in lists, and which files are accepted.
//!
//! A model file is a JSON object in the form of CSDL JSON. [`read_schema`] lists the members of a tree's schema once, those
//! of each entity type by what they are, and [`is_model`] says whether the tree keeps every rule. The other functions read
//! what a member says, for `edm_model`, which builds the model, or tell whether a part keeps a rule, for `model_diagnosis`,
//! which says what is at fault in a file that is refused. The modules: `tree` looks into a JSON tree, `names` tells members
//! by their names, `members` lists them, `kinds` reads the types of properties, `schema` has the schema and its entity
//! types, `links` what navigation properties and entity sets lead to, and `rules` the rules; `named` finds the item of a
//! name.
//!
//! The crate stands on `edm_values` for types, methods and simple identifiers, and on `serde_json` for the JSON tree. Each
//! function equals its definition in `specs/ModelTrees.antt` or `specs/JsonTrees.antt`, and only want of memory may come
//! in place of an answer. Each member of the schema is listed once, and names are found by a binary search among members
//! in byte order of names.
#![tactic(auto)]

pub mod kinds;
pub mod links;
pub mod members;
mod named;
pub mod names;
pub mod rules;
pub mod schema;
pub mod tree;

pub use kinds::{is_nullable, kind_of};
pub use links::type_place;
pub use members::{Member, constraint};
pub use named::{Named, find_named};
pub use names::is_annotation;
pub use rules::{is_model, method_at};
pub use schema::{Schema, TypeTree, read_schema};
pub use tree::{is_true_at, text_at};
