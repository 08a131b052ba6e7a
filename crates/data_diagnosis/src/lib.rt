//! What is at fault in an entity of a data file that is refused.
//!
//! A refusal of `edm_data` says which entity is at fault. These functions say what of it, so that a message can say what is
//! to be mended: [`shape_fault`] the member by which an item is no entity of its type, [`earlier_with_key`] the earlier
//! entity that has the same key, and [`missing_reference`] the navigation property by which an entity refers to a key that
//! is not there. They are asked after a refusal alone; what the service answers does not depend on them.
//!
//! The crate stands on `edm_model` for the model and on `edm_data` for the values that JSON gives. It promises that what is
//! named is at fault, as `specs/EntityFaults.antt` says, and that something is named wherever there is a fault. It looks at
//! one entity, and through the items of a set from the front. Of several earlier entities of the key the first is named;
//! which of several faults of shape is named, and which of several navigation properties, is stated by no clause.
//!
//! That these faults are those for which `edm_data` refuses a file is promised by laws (`specs/FileLaws.antt`), which are
//! functions that do nothing: [`shape_faults_are_of_no_entity`], [`keys_are_of_entities`],
//! [`earlier_keys_are_of_entities`] and [`missing_references_dangle`].
#![tactic(auto)]

mod keys;
mod laws;
mod references;
mod shapes;

pub use keys::earlier_with_key;
pub use laws::{
    earlier_keys_are_of_entities, keys_are_of_entities, missing_references_dangle,
    shape_faults_are_of_no_entity,
};
pub use references::missing_reference;
pub use shapes::{ShapeFault, shape_fault};
