//! The parts of a model.

use crate::Method;
use crate::ids::{CustomId, HierId, NavId, PropId, SetId, TypeId};
use edm_schema::Named;
use edm_values::{EdmType, Text};
use std::marker::Model;

/// A structural property.
#[derive(Debug, Drop)]
pub(crate) struct Property {
    pub(crate) name: Text,
    pub(crate) kind: EdmType,
    pub(crate) nullable: bool,
}

impl Model for Property {
    ghost use Rattle.edm_model.specs.Models as seen;

    ghost Value = { seen.Property };

    ghost view = { λ p. record { name = p.name; kind = p.kind; nullable = p.nullable } };
}

/// A navigation property: the place of the type that it leads to; single-valued, the place of the property that
/// refers to the target's key; collection-valued, the place of the target's navigation that leads back.
#[derive(Debug, Drop)]
pub(crate) struct Navigation {
    pub(crate) name: Text,
    pub(crate) target: usize,
    pub(crate) many: bool,
    pub(crate) dependent: usize,
    pub(crate) partner: usize,
}

impl Model for Navigation {
    ghost use Rattle.edm_model.specs.Models as seen;

    ghost Value = { seen.Navigation };

    ghost view = { λ n. record { name = n.name; target = n.target; many = n.many; dependent = n.dependent; partner = n.partner } };
}

/// A recursive hierarchy: its qualifier, and the place of the navigation to a node's parent.
#[derive(Debug, Drop)]
pub(crate) struct Hierarchy {
    pub(crate) qualifier: Text,
    pub(crate) parent: usize,
}

impl Model for Hierarchy {
    ghost use Rattle.edm_model.specs.Models as seen;

    ghost Value = { seen.Hierarchy };

    ghost view = { λ h. record { qualifier = h.qualifier; parent = h.parent } };
}

/// Texts in a row.
#[derive(Debug, Drop)]
pub struct Texts {
    texts: Vec<Text>,
}

impl Model for Texts {
    ghost use Rattle.std.specs.Prelude.{ℕ, List};

    ghost Value = { List (List ℕ) };

    ghost view = { λ t. t.texts.items };
}

impl Texts {
    ghost use Rattle.std.specs.Prelude.{◌≡◌};

    /// These texts.
    pub fn new(texts: Vec<Text>) -> Texts
        ensures value { result ≡ texts.items }
    {
        Texts { texts }
    }

    /// The texts.
    pub fn as_slice(&self) -> &[Text]
        ensures value { result.now ≡ self.now }
    {
        self.texts.as_slice()
    }

    /// The texts, given back.
    pub fn into_vec(self) -> Vec<Text>
        ensures value { result.items ≡ self }
    {
        self.texts
    }
}

/// The definition of a custom aggregate: its expression and method, and with paths of groups the outer method.
#[derive(Debug, Drop)]
pub(crate) struct Definition {
    pub(crate) name: Text,
    pub(crate) of: Text,
    pub(crate) method: Method,
    pub(crate) per: Texts,
    pub(crate) outer: Option<Method>,
}

impl Model for Definition {
    ghost use Rattle.edm_model.specs.Models as seen;

    ghost Value = { seen.Custom };

    ghost view = { λ c. record { name = c.name; of = c.of; method = c.method; per = c.per; outer = c.outer } };
}

/// An entity type, its parts in byte order of names.
#[derive(Debug, Drop)]
pub(crate) struct EntityType {
    pub(crate) name: Text,
    pub(crate) properties: Vec<Property>,
    pub(crate) key: usize,
    pub(crate) navigations: Vec<Navigation>,
    pub(crate) hierarchies: Vec<Hierarchy>,
    pub(crate) customs: Vec<Definition>,
}

impl Model for EntityType {
    ghost use Rattle.edm_model.specs.Models as seen;

    ghost Value = { seen.EntityType };

    ghost view = { λ t. record { name = t.name; properties = t.properties.items; key = t.key; navigations = t.navigations.items; hierarchies = t.hierarchies.items; customs = t.customs.items } };
}

/// An entity set and the place of its type.
#[derive(Debug, Drop)]
pub(crate) struct EntitySet {
    pub(crate) name: Text,
    pub(crate) of: usize,
}

impl Model for EntitySet {
    ghost use Rattle.edm_model.specs.Models as seen;

    ghost Value = { seen.EntitySet };

    ghost view = { λ s. record { name = s.name; of = s.of } };
}

/// A custom aggregate with its definition: the method over the values of an expression, and with paths of groups the
/// outer method over the groups' results. The expression and the paths are kept as texts.
#[derive(Debug, Drop)]
pub struct Custom {
    pub id: CustomId,
    pub owner: TypeId,
    pub name: Text,
    pub of: Text,
    pub method: Method,
    pub per: Texts,
    pub outer: Option<Method>,
}

/// The ids of a model in rows, and its custom aggregates.
#[derive(Debug, Drop)]
pub(crate) struct Ids {
    pub(crate) sets: Vec<SetId>,
    pub(crate) type_sets: Vec<SetId>,
    pub(crate) properties: Vec<Vec<PropId>>,
    pub(crate) navigations: Vec<Vec<NavId>>,
    pub(crate) hierarchies: Vec<HierId>,
    pub(crate) customs: Vec<Custom>,
}

impl Named for Property {
    ghost name_of = { λ x. x.name };

    fn name(&self) -> &str {
        self.name.as_str()
    }
}

impl Named for Navigation {
    ghost name_of = { λ x. x.name };

    fn name(&self) -> &str {
        self.name.as_str()
    }
}

impl Named for Hierarchy {
    ghost name_of = { λ x. x.qualifier };

    fn name(&self) -> &str {
        self.qualifier.as_str()
    }
}

impl Named for Definition {
    ghost name_of = { λ x. x.name };

    fn name(&self) -> &str {
        self.name.as_str()
    }
}

impl Named for EntityType {
    ghost name_of = { λ x. x.name };

    fn name(&self) -> &str {
        self.name.as_str()
    }
}

impl Named for EntitySet {
    ghost name_of = { λ x. x.name };

    fn name(&self) -> &str {
        self.name.as_str()
    }
}
