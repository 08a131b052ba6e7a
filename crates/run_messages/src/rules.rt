//! The rules of model files in words, as `docs/model-file.md` numbers them.
use model_diagnosis::{
    CollectionTest, ContainerTest, DefinitionTest, HierarchyTest, KeyTest, PropertyTest,
    ReferenceTest, RootTest, SetTest,
};

/// What a part has to be, and the number of the rule that says so.
#[derive(Clone, Copy)]
pub(crate) struct Demand {
    pub(crate) rule: u8,
    pub(crate) words: &'static str,
}

pub(crate) fn root_demand(test: RootTest) -> Demand {
    let words = match test {
        RootTest::Object => "the root must be an object",
        RootTest::Version => "the root must have \"$Version\", a string",
        RootTest::ContainerPath =>
            "the root must have \"$EntityContainer\", a string \"Namespace.Container\"",
        RootTest::Namespace => {
            "before the last point of \"$EntityContainer\" must stand a namespace: simple identifiers joined by points"
        }
        RootTest::Schema => {
            "the root must have a schema: an object under the namespace that \"$EntityContainer\" begins with"
        }
    };
    Demand { rule: 1, words }
}

pub(crate) fn container_demand(test: ContainerTest) -> Demand {
    let words = match test {
        ContainerTest::One =>
            "the schema must have exactly one member of \"$Kind\" \"EntityContainer\"",
        ContainerTest::Name =>
            "the container must have the name that \"$EntityContainer\" ends with",
    };
    Demand { rule: 2, words }
}

/// Whether no name of a part begins as this one does: `$` stands before the names of CSDL.
pub(crate) fn is_reserved(name: &str) -> bool {
    name.starts_with("$")
}

pub(crate) fn schema_member_demand(name: &str) -> Demand {
    let words = if is_reserved(name) {
        "no rule names it; a schema has entity types and one entity container"
    } else {
        "it must be an object of \"$Kind\" \"EntityType\" or \"EntityContainer\""
    };
    Demand { rule: 2, words }
}

pub(crate) fn type_member_demand(name: &str) -> Demand {
    if is_reserved(name) {
        Demand {
            rule: 3,
            words: "no rule names it; an entity type has \"$Kind\" and \"$Key\" beside its properties and navigation properties",
        }
    } else {
        Demand {
            rule: 4,
            words: "it must be an object, with no \"$Kind\" or with \"$Kind\" \"Property\" or \"NavigationProperty\"",
        }
    }
}

pub(crate) fn property_demand(test: PropertyTest) -> Demand {
    match test {
        PropertyTest::TypeText => Demand {
            rule: 4,
            words: "\"$Type\" must be a string",
        },
        PropertyTest::NullableFlag => Demand {
            rule: 4,
            words: "\"$Nullable\" must be true or false",
        },
        PropertyTest::TypeName => Demand {
            rule: 4,
            words: "\"$Type\" must be Edm.Int64, Edm.Decimal, Edm.String, Edm.Date or Edm.Boolean",
        },
        PropertyTest::Scale => Demand {
            rule: 5,
            words: "a decimal must have \"$Scale\", a whole number from 0 to 9",
        },
        PropertyTest::Precision => Demand {
            rule: 5,
            words: "\"$Precision\" must be a whole number from 1 to 18",
        },
        PropertyTest::ScaleInPrecision => Demand {
            rule: 5,
            words: "\"$Scale\" must be at most \"$Precision\"",
        },
        PropertyTest::ScaleInPlace => Demand {
            rule: 5,
            words: "only an Edm.Decimal may have \"$Scale\" or \"$Precision\"",
        },
    }
}

pub(crate) fn key_demand(test: KeyTest) -> Demand {
    let words = match test {
        KeyTest::Text => "\"$Key\" must be an array of one string",
        KeyTest::Property => "\"$Key\" must name a property of the type",
        KeyTest::Null => "the key may not be nullable",
        KeyTest::Type => "the key must be an Edm.Int64, an Edm.String or an Edm.Date",
    };
    Demand { rule: 3, words }
}

pub(crate) fn reference_demand(test: ReferenceTest) -> Demand {
    let words = match test {
        ReferenceTest::Constraint => {
            "without \"$Collection\" it must have \"$ReferentialConstraint\", an object"
        }
        ReferenceTest::One => "\"$ReferentialConstraint\" must have exactly one member",
        ReferenceTest::Property => {
            "the member of \"$ReferentialConstraint\" must have the name of a property of this type"
        }
        ReferenceTest::Key => {
            "the value in \"$ReferentialConstraint\" must be the name of the target's key"
        }
        ReferenceTest::Kind => {
            "the property in \"$ReferentialConstraint\" and the target's key must be of one type"
        }
    };
    Demand { rule: 7, words }
}

pub(crate) fn collection_demand(test: CollectionTest) -> Demand {
    let words = match test {
        CollectionTest::Flag => "\"$Collection\" must be true where it stands",
        CollectionTest::PartnerText => "with \"$Collection\" it must have \"$Partner\", a string",
        CollectionTest::Partner => {
            "\"$Partner\" must name a navigation property of the target that has no \"$Collection\""
        }
        CollectionTest::Back => "\"$Partner\" must lead back to this type",
    };
    Demand { rule: 8, words }
}

pub(crate) fn hierarchy_demand(test: HierarchyTest) -> Demand {
    let words = match test {
        HierarchyTest::Object => "it must be an object",
        HierarchyTest::Node => "\"NodeProperty\" must be the name of the type's key",
        HierarchyTest::ParentText => "it must have \"ParentNavigationProperty\", a string",
        HierarchyTest::Parent => {
            "\"ParentNavigationProperty\" must name a navigation property to this type that has no \"$Collection\""
        }
    };
    Demand { rule: 11, words }
}

pub(crate) fn definition_demand(test: DefinitionTest) -> Demand {
    let words = match test {
        DefinitionTest::Object => "its definition must be an object",
        DefinitionTest::Expression => "its definition must have \"Of\", a string",
        DefinitionTest::Method => "\"With\" must be sum, min, max or countdistinct",
        DefinitionTest::Groups => {
            "its definition must have both \"Per\", an array of at least one string, and \"Then\", a method as in \"With\", or neither"
        }
        DefinitionTest::Aggregate => {
            "beside its definition the custom aggregate must stand in the type"
        }
        DefinitionTest::Free => "no property or navigation property of the type may have its name",
    };
    Demand { rule: 13, words }
}

pub(crate) fn set_demand(test: SetTest) -> Demand {
    let words = match test {
        SetTest::Object => "it must be an object",
        SetTest::Flag => "\"$Collection\" must be true",
        SetTest::Type => {
            "\"$Type\" must be the namespace, a point and the name of an entity type of the schema"
        }
    };
    Demand { rule: 9, words }
}
