//! What is at fault in a model file that is refused.
//!
//! [`first_fault`] names a part of a file's schema that breaks a rule of model files, and the test that the part fails. It is
//! asked after a refusal alone, so that a message can say what is to be mended; what the service answers does not depend on
//! it. The crate stands on `edm_schema`, whose tests of the parts it asks one by one.
//!
//! It promises that what is named is at fault, as `IsFault` in `specs/Faults.antt` says of each part and test, and that
//! something is named wherever a rule is broken. The test that is named is the first that its part fails, in the order in which
//! `faults` has the tests, and a member of the root is named only where the root passes its tests. Which of several faults is
//! named is stated by no clause: the order of the parts is shown by tests alone. Members and properties are looked at before
//! keys, and these before what leads from one type to another, so that a fault is named at the part that is to be mended and
//! not at one that refers to it.
//!
//! `faults` has the parts and their tests, `others` finds members that no rule names, `roots` looks at the root and the
//! schema, `parts` at what a type has of its own, `links` at its navigation properties, `terms` at its hierarchies and custom
//! aggregates, `sets` at the entity sets, `names` at names, and `search` goes through all of them.
#![tactic(auto)]

mod faults;
mod links;
mod names;
mod others;
mod parts;
mod roots;
mod search;
mod sets;
mod terms;

pub use faults::{
    CollectionTest, ContainerTest, DefinitionTest, Fault, HierarchyTest, KeyTest, PropertyTest,
    ReferenceTest, RootTest, SetTest, TypeFault,
};
pub use search::first_fault;
