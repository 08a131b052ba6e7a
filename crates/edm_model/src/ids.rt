//! Ids: which type, set, property, navigation, hierarchy or custom aggregate of a model is meant.

use std::marker::Model;

/// An entity type of a model.
#[derive(Clone, Copy, Debug, PartialEq, Eq, Drop)]
pub struct TypeId {
    pub(crate) place: usize,
}

impl Model for TypeId {
    ghost use Rattle.std.specs.Prelude.{ℕ};

    ghost Value = { ℕ };

    ghost view = { λ t. t.place };

    ghost inverse = { λ n. record { place = n } };
}

impl TypeId {
    ghost use Rattle.std.specs.Prelude.{◌≡◌};

    /// Its place among those of the model, in byte order of names.
    pub fn place(self) -> usize
        ensures value { result ≡ self }
    {
        self.place
    }
}

/// An entity set of a model.
#[derive(Clone, Copy, Debug, PartialEq, Eq, Drop)]
pub struct SetId {
    pub(crate) place: usize,
}

impl Model for SetId {
    ghost use Rattle.std.specs.Prelude.{ℕ};

    ghost Value = { ℕ };

    ghost view = { λ s. s.place };

    ghost inverse = { λ n. record { place = n } };
}

impl SetId {
    ghost use Rattle.std.specs.Prelude.{◌≡◌};

    /// Its place among those of the model, in byte order of names.
    pub fn place(self) -> usize
        ensures value { result ≡ self }
    {
        self.place
    }
}

/// A property of an entity type.
#[derive(Clone, Copy, Debug, PartialEq, Eq, Drop)]
pub struct PropId {
    pub(crate) of: usize,
    pub(crate) at: usize,
}

impl Model for PropId {
    ghost use Rattle.edm_model.specs.Models.{Part};

    ghost Value = { Part };

    ghost view = { λ p. record { of = p.of; at = p.at } };

    ghost inverse = { λ p. record { of = p.of; at = p.at } };
}

impl PropId {
    ghost use Rattle.std.specs.Prelude.{◌≡◌};

    /// Its place in the list of its type, in byte order of names.
    pub fn place(self) -> usize
        ensures value { result ≡ self.at }
    {
        self.at
    }
}

/// A navigation property of an entity type.
#[derive(Clone, Copy, Debug, PartialEq, Eq, Drop)]
pub struct NavId {
    pub(crate) of: usize,
    pub(crate) at: usize,
}

impl Model for NavId {
    ghost use Rattle.edm_model.specs.Models.{Part};

    ghost Value = { Part };

    ghost view = { λ n. record { of = n.of; at = n.at } };

    ghost inverse = { λ n. record { of = n.of; at = n.at } };
}

impl NavId {
    ghost use Rattle.std.specs.Prelude.{◌≡◌};

    /// Its place in the list of its type, in byte order of names.
    pub fn place(self) -> usize
        ensures value { result ≡ self.at }
    {
        self.at
    }
}

/// A recursive hierarchy of an entity type.
#[derive(Clone, Copy, Debug, PartialEq, Eq, Drop)]
pub struct HierId {
    pub(crate) of: usize,
    pub(crate) at: usize,
}

impl Model for HierId {
    ghost use Rattle.edm_model.specs.Models.{Part};

    ghost Value = { Part };

    ghost view = { λ h. record { of = h.of; at = h.at } };

    ghost inverse = { λ h. record { of = h.of; at = h.at } };
}

impl HierId {
    ghost use Rattle.std.specs.Prelude.{◌≡◌};

    /// Its place in the list of its type, in byte order of names.
    pub fn place(self) -> usize
        ensures value { result ≡ self.at }
    {
        self.at
    }
}

/// A custom aggregate of an entity type.
#[derive(Clone, Copy, Debug, PartialEq, Eq, Drop)]
pub struct CustomId {
    pub(crate) of: usize,
    pub(crate) at: usize,
}

impl Model for CustomId {
    ghost use Rattle.edm_model.specs.Models.{Part};

    ghost Value = { Part };

    ghost view = { λ c. record { of = c.of; at = c.at } };

    ghost inverse = { λ c. record { of = c.of; at = c.at } };
}

impl CustomId {
    ghost use Rattle.std.specs.Prelude.{◌≡◌};

    /// Its place in the list of its type, in byte order of names.
    pub fn place(self) -> usize
        ensures value { result ≡ self.at }
    {
        self.at
    }

    /// The entity type that it belongs to.
    pub fn owner(self) -> TypeId
        ensures value { result ≡ self.of }
    {
        TypeId { place: self.of }
    }
}
