//! Data files: the entities of a model's sets, and the references between them.
//!
//! `read_data` reads a JSON file over a model and gives its `Data`, or the first fault that the file has. `Data` answers
//! which value an entity has, which entity has a key, what an entity refers to, and what it is related to. `PropertyValues` has
//! the values of one property of a set's entities, and `LinkedPlaces` what they refer to by one navigation property, for those who
//! read many. Texts that repeat are kept once each, and `NumberedTexts` tells which are the same by their numbers.
//! `docs/data-file.md` states the form of a file.
//!
//! The crate stands on `edm_model` for models, on `edm_values` for values and their order, and on `serde_json` and `indexmap`.
//!
//! It promises that the data is the world of the file (`specs/DataFile`), that each refusal comes exactly where the file
//! is so, memory aside, with its first place, and that each reader equals a search or a filter of the world's lists
//! (`specs/References`). Keys, references and related entities are looked up in indexes that are made while a file is
//! loaded; how fast they are is measured and not proved.
#![tactic(auto)]

mod columns;
mod data;
mod entities;
mod json_values;
mod key_order;
mod keyed;
mod keys;
mod linked_places;
mod links;
mod load;
mod numbered_texts;
mod places;
mod property_values;
mod references;
mod relations;
mod table;
mod tables;
mod texts;
mod values;

ghost use Rattle.std.specs.Prelude.{◌≡◌};

pub use data::Data;
use edm_model::SetId;
use edm_values::Text;
pub use entities::{is_known_member, property_value, set_items};
pub use linked_places::LinkedPlaces;
pub use load::{DATA_LIMIT, read_data};
pub use numbered_texts::NumberedTexts;
pub use property_values::PropertyValues;
use std::alloc::{AllocError, AllocFailed};
use std::marker::Model;
use thiserror::Error;

/// An entity of loaded data: its set, and its place there, counted from 0 in data order.
#[derive(Clone, Copy, Debug, PartialEq, Eq, Drop)]
pub struct EntityRef {
    pub set: SetId,
    pub at: u32,
}

impl Model for EntityRef {
    ghost use Rattle.edm_data.specs.Worlds.{Entity};

    ghost Value = { Entity };

    ghost view = { λ e. record { set = e.set; at = e.at } };

    ghost inverse = { λ e. record { set = e.set; at = e.at } };
}

/// Why a file is no data file: the first class of fault that it has, with its first place, by set in byte order of
/// names and then by entity, counted from 0.
#[derive(Debug, Drop, Error)]
pub enum DataRefused {
    /// The file has more bytes than a data file may have.
    #[error("the data file is too long")]
    TooLong,
    /// The bytes are no JSON text, or it is no object.
    #[error("the data file is no JSON object")]
    Json,
    /// The member names no entity set, or is no array.
    #[error("a member of the data file is no array of an entity set")]
    Set(Text),
    /// The item is no entity of the set's type.
    #[error("an item of the data file is no entity of its set")]
    Shape(SetId, u32),
    /// The entity's key stands earlier in its set.
    #[error("two entities of a set have one key")]
    TwiceKey(SetId, u32),
    /// The entity refers to a key that is not there.
    #[error("an entity refers to a key that is not there")]
    Dangling(SetId, u32),
    /// Memory ran out, which says nothing of the file.
    #[error("out of memory")]
    Memory,
}

impl<T: Drop> From<AllocFailed<T>> for DataRefused {
    ghost use Rattle.edm_data.specs.declared.DataRefused.TheVariants.{Memory};

    ghost from_gives = { λ _ e. e ≡ Memory };

    fn from(_: AllocFailed<T>) -> DataRefused {
        DataRefused::Memory
    }
}

impl From<AllocError> for DataRefused {
    ghost use Rattle.edm_data.specs.declared.DataRefused.TheVariants.{Memory};

    ghost from_gives = { λ _ e. e ≡ Memory };

    fn from(_: AllocError) -> DataRefused {
        DataRefused::Memory
    }
}
