//! What requests are answered over.
//!
//! A [`Store`] is loaded data, with the typed readings of its model's custom aggregates and the states of its hierarchies.
//! [`judge_customs`] gives these readings, or the first custom aggregate that has none; [`identifier`] is the text by which an
//! answer names an entity. The crate stands on `edm_data` for the data, on `custom_readings` and `context_typing` for custom
//! aggregates, and on `hier_states` for hierarchies. It knows nothing of files.
//!
//! It promises that the parts of a store belong together: the readings are typed over the model of the data, each custom
//! aggregate of the model has one, and each state is that of its hierarchy; and that the custom aggregate that is named is the
//! first of the model, by type and name, without a typed reading.
//!
//! `store` is what was loaded, `judging` has the custom aggregates, and `identifiers` the texts of identifiers.
#![tactic(auto)]

mod identifiers;
mod judging;
mod store;

pub use identifiers::identifier;
pub use judging::{CustomFault, judge_customs};
pub use store::Store;
