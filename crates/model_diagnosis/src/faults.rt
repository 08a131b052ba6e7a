//! The parts of a model file that may be at fault, each with the test that it fails.
//!
//! The tests of a part stand in the order in which they are made. One is named where those before it hold and it does not.

/// What the root of a file has.
#[derive(Clone, Copy, Drop)]
pub enum RootTest {
    /// It is an object.
    Object,
    /// `$Version` is a string.
    Version,
    /// `$EntityContainer` is a string.
    ContainerPath,
    /// What stands before the last point of `$EntityContainer` is one simple identifier or several, joined by points.
    Namespace,
    /// The member under the namespace is an object.
    Schema,
}

/// What the containers of a schema are.
#[derive(Clone, Copy, Drop)]
pub enum ContainerTest {
    /// There is one.
    One,
    /// It has the name that `$EntityContainer` ends with.
    Name,
}

/// What a property has.
#[derive(Clone, Copy, Drop)]
pub enum PropertyTest {
    /// `$Type` is a string where it stands.
    TypeText,
    /// `$Nullable` is true or false where it stands.
    NullableFlag,
    /// The type is one of the five.
    TypeName,
    /// A decimal has a `$Scale` from 0 to 9.
    Scale,
    /// The `$Precision` of a decimal is from 1 to 18 where it stands.
    Precision,
    /// The scale is at most the precision.
    ScaleInPrecision,
    /// No other type has a scale or a precision.
    ScaleInPlace,
}

/// What the key of an entity type is.
#[derive(Clone, Copy, Drop)]
pub enum KeyTest {
    /// `$Key` is an array of one string.
    Text,
    /// The string names a property of the type.
    Property,
    /// The property is not nullable.
    Null,
    /// The property is an `Edm.Int64`, an `Edm.String` or an `Edm.Date`.
    Type,
}

/// What a single-valued navigation property has.
#[derive(Clone, Copy, Drop)]
pub enum ReferenceTest {
    /// `$ReferentialConstraint` is an object.
    Constraint,
    /// The object has one member besides annotations.
    One,
    /// The member names a property of the type.
    Property,
    /// The member's value is the name of the target's key.
    Key,
    /// The property and the key are of one kind.
    Kind,
}

/// What a collection-valued navigation property has.
#[derive(Clone, Copy, Drop)]
pub enum CollectionTest {
    /// `$Collection` is true.
    Flag,
    /// `$Partner` is a string.
    PartnerText,
    /// The string names a single-valued navigation property of the target.
    Partner,
    /// That navigation property leads back to the type.
    Back,
}

/// What a recursive hierarchy has.
#[derive(Clone, Copy, Drop)]
pub enum HierarchyTest {
    /// It is an object.
    Object,
    /// `NodeProperty` is the name of the type's key.
    Node,
    /// `ParentNavigationProperty` is a string.
    ParentText,
    /// The string names a single-valued navigation property to the same type.
    Parent,
}

/// What the definition of a custom aggregate has.
#[derive(Clone, Copy, Drop)]
pub enum DefinitionTest {
    /// It is an object.
    Object,
    /// `Of` is a string.
    Expression,
    /// `With` is one of the methods.
    Method,
    /// `Per` and `Then` stand both, as an array of strings and a method, or neither does.
    Groups,
    /// The custom aggregate stands in the type.
    Aggregate,
    /// No property or navigation property of the type has the name.
    Free,
}

/// What an entity set has.
#[derive(Clone, Copy, Drop)]
pub enum SetTest {
    /// It is an object.
    Object,
    /// `$Collection` is true.
    Flag,
    /// `$Type` is the qualified name of an entity type of the schema.
    Type,
}

/// A part of an entity type that is at fault, by its name; hierarchies, custom aggregates and their definitions by their
/// qualifiers. Where two names stand, the second is of a member of the part that no rule names.
#[derive(Clone, Copy, Drop)]
pub enum TypeFault<'v> {
    /// A member is neither a property nor a navigation property.
    Member(&'v str),
    Property(&'v str, PropertyTest),
    PropertyMember(&'v str, &'v str),
    Key(KeyTest),
    /// The type of a navigation property is no entity type of the schema.
    Target(&'v str),
    Reference(&'v str, ReferenceTest),
    ReferenceMember(&'v str, &'v str),
    Collection(&'v str, CollectionTest),
    CollectionMember(&'v str, &'v str),
    Hierarchy(&'v str, HierarchyTest),
    HierarchyMember(&'v str, &'v str),
    /// A custom aggregate is no string.
    Aggregate(&'v str),
    Definition(&'v str, DefinitionTest),
    DefinitionMember(&'v str, &'v str),
    /// The name of a member is no simple identifier, nor has it one behind its term.
    Name(&'v str),
}

/// A part of a model file that is at fault.
#[derive(Clone, Copy, Drop)]
pub enum Fault<'v> {
    Root(RootTest),
    /// The root has a member that no rule names.
    RootMember(&'v str),
    /// A member of the schema is neither an entity type nor a container.
    SchemaMember(&'v str),
    Containers(ContainerTest),
    /// A part of the entity type of this name.
    Type(&'v str, TypeFault<'v>),
    /// The entity set of this name.
    Set(&'v str, SetTest),
    /// The entity set of this name has a member that no rule names.
    SetMember(&'v str, &'v str),
    /// The entity type of this name has no set, or several.
    SetCount(&'v str),
    /// The name of an entity type is no simple identifier.
    TypeName(&'v str),
    /// The name of an entity set is no simple identifier.
    SetName(&'v str),
}
