//! The sample's files, and mistakes in them, as docs/mistakes.md has them.

pub(crate) const MODEL: &str =
    "{\"$Version\":\"4.01\",\"$EntityContainer\":\"W.C\",\"W\":{\n\"Sale\":{\"$Kind\":\"EntityType\",\"$Key\":[\"ID\"],\n\"ID\":{\"$Type\":\"Edm.Int64\"},\n\"Amount\":{\"$Type\":\"Edm.Decimal\",\"$Precision\":16,\"$Scale\":2,\"$Nullable\":true},\n\"CustomerID\":{},\"OrgID\":{\"$Nullable\":true},\n\"Customer\":{\"$Kind\":\"NavigationProperty\",\"$Type\":\"W.Customer\",\"$Partner\":\"Sales\",\"$ReferentialConstraint\":{\"CustomerID\":\"ID\"}},\n\"Org\":{\"$Kind\":\"NavigationProperty\",\"$Type\":\"W.Org\",\"$Nullable\":true,\"$ReferentialConstraint\":{\"OrgID\":\"ID\"}},\n\"@Org.OData.Aggregation.V1.CustomAggregate#Best\":\"Edm.Decimal\",\n\"@Local.Apply.V1.Definition#Best\":{\"Of\":\"Amount\",\"With\":\"sum\",\"Per\":[\"CustomerID\"],\"Then\":\"max\"}},\n\"Customer\":{\"$Kind\":\"EntityType\",\"$Key\":[\"ID\"],\"ID\":{},\"Name\":{},\"Country\":{},\n\"Since\":{\"$Type\":\"Edm.Date\",\"$Nullable\":true},\n\"Sales\":{\"$Kind\":\"NavigationProperty\",\"$Collection\":true,\"$Type\":\"W.Sale\",\"$Partner\":\"Customer\"}},\n\"Org\":{\"$Kind\":\"EntityType\",\"$Key\":[\"ID\"],\"ID\":{},\"ParentID\":{\"$Nullable\":true},\n\"Superordinate\":{\"$Kind\":\"NavigationProperty\",\"$Type\":\"W.Org\",\"$Nullable\":true,\"$ReferentialConstraint\":{\"ParentID\":\"ID\"}},\n\"@Org.OData.Aggregation.V1.RecursiveHierarchy#OrgTree\":{\"NodeProperty\":\"ID\",\"ParentNavigationProperty\":\"Superordinate\"}},\n\"C\":{\"$Kind\":\"EntityContainer\",\"Sales\":{\"$Collection\":true,\"$Type\":\"W.Sale\"},\n\"Customers\":{\"$Collection\":true,\"$Type\":\"W.Customer\"},\"Orgs\":{\"$Collection\":true,\"$Type\":\"W.Org\"}}}}\n";

pub(crate) const DATA: &str =
    "{\"Customers\":[{\"ID\":\"C1\",\"Name\":\"Joe\",\"Country\":\"US\",\"Since\":\"2019-05-01\"},\n{\"ID\":\"C2\",\"Name\":\"Sue\",\"Country\":\"NL\",\"Since\":\"2020-02-29\"},\n{\"ID\":\"C3\",\"Name\":\"Luc\",\"Country\":\"FR\"},\n{\"ID\":\"C4\",\"Name\":\"Ann\",\"Country\":\"FR\",\"Since\":\"2020-12-31\"}],\n\"Orgs\":[{\"ID\":\"Corp\"},{\"ID\":\"EMEA\",\"ParentID\":\"Corp\"},{\"ID\":\"US\",\"ParentID\":\"Corp\"},\n{\"ID\":\"West\",\"ParentID\":\"US\"},{\"ID\":\"East\",\"ParentID\":\"US\"},{\"ID\":\"Lab\"}],\n\"Sales\":[{\"ID\":1,\"Amount\":\"10.00\",\"CustomerID\":\"C1\",\"OrgID\":\"West\"},\n{\"ID\":\"2\",\"Amount\":\"5.50\",\"CustomerID\":\"C1\",\"OrgID\":\"East\"},\n{\"ID\":\"3\",\"Amount\":\"7.25\",\"CustomerID\":\"C2\",\"OrgID\":\"EMEA\"},\n{\"ID\":\"4\",\"Amount\":null,\"CustomerID\":\"C3\",\"OrgID\":\"West\"},\n{\"ID\":\"5\",\"Amount\":1,\"CustomerID\":\"C2\"},\n{\"ID\":\"6\",\"Amount\":\"2.25\",\"CustomerID\":\"C1\",\"OrgID\":\"US\"}]}\n";

/// What stands in the file, what is written in its place, and what is told of that.
pub(crate) const IN_MODEL_1: &[(&str, &str, &str)] = &[
    (
        "\"$Version\":\"4.01\",",
        "",
        "the root must have \"$Version\", a string (rule 1)",
    ),
    (
        "\"$EntityContainer\":\"W.C\"",
        "\"$EntityContainer\":[\"W\",\"C\"]",
        "the root must have \"$EntityContainer\", a string \"Namespace.Container\" (rule 1)",
    ),
    (
        "\"$EntityContainer\":\"W.C\"",
        "\"$EntityContainer\":\"C\"",
        "before the last point of \"$EntityContainer\" must stand a namespace: simple identifiers joined by points (rule 1)",
    ),
    (
        "\"$EntityContainer\":\"W.C\"",
        "\"$EntityContainer\":\"2W.C\"",
        "before the last point of \"$EntityContainer\" must stand a namespace: simple identifiers joined by points (rule 1)",
    ),
    (
        "\"W\":{",
        "\"V\":{",
        "the root must have a schema: an object under the namespace that \"$EntityContainer\" begins with (rule 1)",
    ),
    (
        "\"$Version\":\"4.01\",",
        "\"$Version\":\"4.01\",\"Title\":\"Sales\",",
        "member \"Title\": the root may have \"$Version\", \"$EntityContainer\" and one schema (rule 1)",
    ),
    (
        "\"Sale\":{\"$Kind\":\"EntityType\"",
        "\"Sale\":{\"$Kind\":\"ComplexType\"",
        "member \"Sale\": it must be an object of \"$Kind\" \"EntityType\" or \"EntityContainer\" (rule 2)",
    ),
    (
        "\"Sale\":{\"$Kind\":\"EntityType\",",
        "\"Sale\":{",
        "member \"Sale\": it must be an object of \"$Kind\" \"EntityType\" or \"EntityContainer\" (rule 2)",
    ),
    (
        "\"C\":{\"$Kind\":\"EntityContainer\"",
        "\"D\":{\"$Kind\":\"EntityContainer\"",
        "the container must have the name that \"$EntityContainer\" ends with (rule 2)",
    ),
    (
        "\"C\":{\"$Kind\"",
        "\"$Annotations\":{},\"C\":{\"$Kind\"",
        "member \"$Annotations\": no rule names it; a schema has entity types and one entity container (rule 2)",
    ),
    (
        "\"C\":{\"$Kind\"",
        "\"B\":{\"$Kind\":\"EntityContainer\"},\"C\":{\"$Kind\"",
        "the schema must have exactly one member of \"$Kind\" \"EntityContainer\" (rule 2)",
    ),
    (
        "\"Sale\":{\"$Kind\":\"EntityType\",\"$Key\":[\"ID\"],",
        "\"Sale\":{\"$Kind\":\"EntityType\",",
        "entity type \"Sale\": \"$Key\" must be an array of one string (rule 3)",
    ),
    (
        "\"Sale\":{\"$Kind\":\"EntityType\",\"$Key\":[\"ID\"]",
        "\"Sale\":{\"$Kind\":\"EntityType\",\"$Key\":[\"ID\",\"OrgID\"]",
        "entity type \"Sale\": \"$Key\" must be an array of one string (rule 3)",
    ),
    (
        "\"Sale\":{\"$Kind\":\"EntityType\",\"$Key\":[\"ID\"]",
        "\"Sale\":{\"$Kind\":\"EntityType\",\"$Key\":[\"Id\"]",
        "entity type \"Sale\": \"$Key\" must name a property of the type (rule 3)",
    ),
    (
        "\"Sale\":{\"$Kind\":\"EntityType\",",
        "\"Sale\":{\"$Kind\":\"EntityType\",\"$Abstract\":true,",
        "entity type \"Sale\": member \"$Abstract\": no rule names it; an entity type has \"$Kind\" and \"$Key\" beside its properties and navigation properties (rule 3)",
    ),
    (
        "\"ID\":{\"$Type\":\"Edm.Int64\"}",
        "\"ID\":{\"$Type\":\"Edm.Int64\",\"$Nullable\":true}",
        "entity type \"Sale\": the key may not be nullable (rule 3)",
    ),
    (
        "\"ID\":{\"$Type\":\"Edm.Int64\"}",
        "\"ID\":{\"$Type\":\"Edm.Boolean\"}",
        "entity type \"Sale\": the key must be an Edm.Int64, an Edm.String or an Edm.Date (rule 3)",
    ),
    (
        "\"CustomerID\":{}",
        "\"CustomerID\":\"Edm.String\"",
        "entity type \"Sale\": member \"CustomerID\": it must be an object, with no \"$Kind\" or with \"$Kind\" \"Property\" or \"NavigationProperty\" (rule 4)",
    ),
    (
        "\"Country\":{}",
        "\"Country\":{\"$Kind\":\"Text\"}",
        "entity type \"Customer\": member \"Country\": it must be an object, with no \"$Kind\" or with \"$Kind\" \"Property\" or \"NavigationProperty\" (rule 4)",
    ),
    (
        "\"Edm.Int64\"",
        "\"Int64\"",
        "entity type \"Sale\": property \"ID\": \"$Type\" must be Edm.Int64, Edm.Decimal, Edm.String, Edm.Date or Edm.Boolean (rule 4), and is \"Int64\"",
    ),
];

/// What stands in the file, what is written in its place, and what is told of that.
pub(crate) const IN_MODEL_2: &[(&str, &str, &str)] = &[
    (
        "\"Edm.Date\"",
        "\"Edm.DateTimeOffset\"",
        "entity type \"Customer\": property \"Since\": \"$Type\" must be Edm.Int64, Edm.Decimal, Edm.String, Edm.Date or Edm.Boolean (rule 4), and is \"Edm.DateTimeOffset\"",
    ),
    (
        "\"Edm.Date\"",
        "[\"Edm.Date\"]",
        "entity type \"Customer\": property \"Since\": \"$Type\" must be a string (rule 4)",
    ),
    (
        "\"OrgID\":{\"$Nullable\":true}",
        "\"OrgID\":{\"$Nullable\":\"true\"}",
        "entity type \"Sale\": property \"OrgID\": \"$Nullable\" must be true or false (rule 4)",
    ),
    (
        "\"Country\":{}",
        "\"Country\":{\"MaxLength\":2}",
        "entity type \"Customer\": property \"Country\" may not have a member \"MaxLength\" (rule 4)",
    ),
    (
        "\"$Precision\":16,\"$Scale\":2",
        "\"$Precision\":16",
        "entity type \"Sale\": property \"Amount\": a decimal must have \"$Scale\", a whole number from 0 to 9 (rule 5)",
    ),
    (
        "\"$Precision\":16,\"$Scale\":2",
        "\"$Precision\":16,\"$Scale\":\"variable\"",
        "entity type \"Sale\": property \"Amount\": a decimal must have \"$Scale\", a whole number from 0 to 9 (rule 5)",
    ),
    (
        "\"$Precision\":16,\"$Scale\":2",
        "\"$Precision\":18,\"$Scale\":10",
        "entity type \"Sale\": property \"Amount\": a decimal must have \"$Scale\", a whole number from 0 to 9 (rule 5)",
    ),
    (
        "\"$Precision\":16,\"$Scale\":2",
        "\"$Precision\":19,\"$Scale\":2",
        "entity type \"Sale\": property \"Amount\": \"$Precision\" must be a whole number from 1 to 18 (rule 5)",
    ),
    (
        "\"$Precision\":16,\"$Scale\":2",
        "\"$Precision\":2,\"$Scale\":3",
        "entity type \"Sale\": property \"Amount\": \"$Scale\" must be at most \"$Precision\" (rule 5)",
    ),
    (
        "{\"$Type\":\"Edm.Int64\"}",
        "{\"$Type\":\"Edm.Int64\",\"$Scale\":0}",
        "entity type \"Sale\": property \"ID\": only an Edm.Decimal may have \"$Scale\" or \"$Precision\" (rule 5)",
    ),
    (
        "\"$Type\":\"W.Customer\",\"$Partner\"",
        "\"$Type\":\"Customer\",\"$Partner\"",
        "entity type \"Sale\": navigation property \"Customer\": \"$Type\" must be the namespace, a point and the name of an entity type of the schema (rule 6), and is \"Customer\"",
    ),
    (
        "\"$Type\":\"W.Customer\",\"$Partner\"",
        "\"$Partner\"",
        "entity type \"Sale\": navigation property \"Customer\": \"$Type\" must be the namespace, a point and the name of an entity type of the schema (rule 6)",
    ),
    (
        "\"$Type\":\"W.Org\",\"$Nullable\":true,\"$ReferentialConstraint\":{\"OrgID\":\"ID\"}",
        "\"$Type\":\"W.Orgs\",\"$Nullable\":true,\"$ReferentialConstraint\":{\"OrgID\":\"ID\"}",
        "entity type \"Sale\": navigation property \"Org\": \"$Type\" must be the namespace, a point and the name of an entity type of the schema (rule 6), and is \"W.Orgs\"",
    ),
    (
        "\"$Kind\":\"NavigationProperty\",\"$Type\":\"W.Customer\"",
        "\"$Kind\":\"NavigationProperty\",\"Type\":\"W.Customer\"",
        "entity type \"Sale\": navigation property \"Customer\" may not have a member \"Type\" (rule 7)",
    ),
    (
        ",\"$ReferentialConstraint\":{\"CustomerID\":\"ID\"}",
        "",
        "entity type \"Sale\": navigation property \"Customer\": without \"$Collection\" it must have \"$ReferentialConstraint\", an object (rule 7)",
    ),
    (
        "{\"CustomerID\":\"ID\"}",
        "\"CustomerID\"",
        "entity type \"Sale\": navigation property \"Customer\": without \"$Collection\" it must have \"$ReferentialConstraint\", an object (rule 7)",
    ),
    (
        "{\"CustomerID\":\"ID\"}",
        "{\"CustomerID\":\"ID\",\"OrgID\":\"ID\"}",
        "entity type \"Sale\": navigation property \"Customer\": \"$ReferentialConstraint\" must have exactly one member (rule 7)",
    ),
    (
        "{\"CustomerID\":\"ID\"}",
        "{\"ID\":\"CustomerID\"}",
        "entity type \"Sale\": navigation property \"Customer\": the value in \"$ReferentialConstraint\" must be the name of the target's key (rule 7)",
    ),
    (
        "{\"CustomerID\":\"ID\"}",
        "{\"Customer\":\"ID\"}",
        "entity type \"Sale\": navigation property \"Customer\": the member of \"$ReferentialConstraint\" must have the name of a property of this type (rule 7)",
    ),
    (
        "{\"CustomerID\":\"ID\"}",
        "{\"Amount\":\"ID\"}",
        "entity type \"Sale\": navigation property \"Customer\": the property in \"$ReferentialConstraint\" and the target's key must be of one type (rule 7)",
    ),
];

/// What stands in the file, what is written in its place, and what is told of that.
pub(crate) const IN_MODEL_3: &[(&str, &str, &str)] = &[
    (
        "\"$Partner\":\"Sales\",\"$Ref",
        "\"$ContainsTarget\":true,\"$Partner\":\"Sales\",\"$Ref",
        "entity type \"Sale\": navigation property \"Customer\" may not have a member \"$ContainsTarget\" (rule 7)",
    ),
    (
        "\"$Collection\":true,\"$Type\":\"W.Sale\",\"$Partner\"",
        "\"$Type\":\"W.Sale\",\"$Partner\"",
        "entity type \"Customer\": navigation property \"Sales\": without \"$Collection\" it must have \"$ReferentialConstraint\", an object (rule 7)",
    ),
    (
        "\"$Collection\":true,\"$Type\":\"W.Sale\",\"$Partner\"",
        "\"$Collection\":\"true\",\"$Type\":\"W.Sale\",\"$Partner\"",
        "entity type \"Customer\": navigation property \"Sales\": \"$Collection\" must be true where it stands (rule 8)",
    ),
    (
        ",\"$Partner\":\"Customer\"",
        "",
        "entity type \"Customer\": navigation property \"Sales\": with \"$Collection\" it must have \"$Partner\", a string (rule 8)",
    ),
    (
        "\"$Partner\":\"Customer\"",
        "\"$Partner\":\"CustomerID\"",
        "entity type \"Customer\": navigation property \"Sales\": \"$Partner\" must name a navigation property of the target that has no \"$Collection\" (rule 8)",
    ),
    (
        "\"$Partner\":\"Customer\"",
        "\"$Partner\":\"Org\"",
        "entity type \"Customer\": navigation property \"Sales\": \"$Partner\" must lead back to this type (rule 8)",
    ),
    (
        "\"$Partner\":\"Customer\"",
        "\"$Partner\":\"Customer\",\"$ReferentialConstraint\":{\"ID\":\"CustomerID\"}",
        "entity type \"Customer\": navigation property \"Sales\" may not have a member \"$ReferentialConstraint\" (rule 8)",
    ),
    (
        "\"Customers\":{\"$Collection\":true,\"$Type\":\"W.Customer\"},",
        "",
        "entity type \"Customer\": the container must have exactly one entity set of it (rule 9)",
    ),
    (
        "\"Orgs\":{",
        "\"Units\":{\"$Collection\":true,\"$Type\":\"W.Org\"},\"Orgs\":{",
        "entity type \"Org\": the container must have exactly one entity set of it (rule 9)",
    ),
    (
        "\"Orgs\":{\"$Collection\":true,",
        "\"Orgs\":{",
        "entity set \"Orgs\": \"$Collection\" must be true (rule 9)",
    ),
    (
        "\"Orgs\":{\"$Collection\":true,\"$Type\":\"W.Org\"}",
        "\"Orgs\":{\"$Collection\":true,\"$Type\":\"Org\"}",
        "entity set \"Orgs\": \"$Type\" must be the namespace, a point and the name of an entity type of the schema (rule 9), and is \"Org\"",
    ),
    (
        "\"Orgs\":{\"$Collection\":true,",
        "\"Orgs\":{\"$Collection\":true,\"Title\":\"Units\",",
        "entity set \"Orgs\" may not have a member \"Title\" (rule 9)",
    ),
    (
        "\"C\":{\"$Kind\":\"EntityContainer\",",
        "\"C\":{\"$Kind\":\"EntityContainer\",\"$Extends\":\"W.B\",",
        "member \"$Extends\": no rule names it; beside its kind the container has entity sets (rule 9)",
    ),
    (
        "\"Orgs\":{\"$Collection\":true,\"$Type\":\"W.Org\"}",
        "\"Orgs\":\"W.Org\"",
        "entity set \"Orgs\": it must be an object (rule 9)",
    ),
    (
        "\"Name\":{}",
        "\"Full Name\":{}",
        "entity type \"Customer\": member \"Full Name\": its name must be a simple identifier: at most 128 letters A to Z and a to z, digits and _, not beginning with a digit, and no reserved word (docs/grammar.md) (rule 10)",
    ),
    (
        "\"Country\":{}",
        "\"and\":{}",
        "entity type \"Customer\": member \"and\": its name must be a simple identifier: at most 128 letters A to Z and a to z, digits and _, not beginning with a digit, and no reserved word (docs/grammar.md) (rule 10)",
    ),
    (
        "\"Orgs\":{",
        "\"2Orgs\":{",
        "entity set \"2Orgs\": its name must be a simple identifier: at most 128 letters A to Z and a to z, digits and _, not beginning with a digit, and no reserved word (docs/grammar.md) (rule 10)",
    ),
    (
        "\"Customers\":{",
        "\"Kunden-Liste\":{",
        "entity set \"Kunden-Liste\": its name must be a simple identifier: at most 128 letters A to Z and a to z, digits and _, not beginning with a digit, and no reserved word (docs/grammar.md) (rule 10)",
    ),
    (
        "RecursiveHierarchy#OrgTree",
        "RecursiveHierarchy#Org.Tree",
        "entity type \"Org\": member \"@Org.OData.Aggregation.V1.RecursiveHierarchy#Org.Tree\": its name must be a simple identifier: at most 128 letters A to Z and a to z, digits and _, not beginning with a digit, and no reserved word (docs/grammar.md) (rule 10)",
    ),
    (
        "\"NodeProperty\":\"ID\"",
        "\"NodeProperty\":\"Id\"",
        "entity type \"Org\": recursive hierarchy \"OrgTree\": \"NodeProperty\" must be the name of the type's key (rule 11)",
    ),
];

/// What stands in the file, what is written in its place, and what is told of that.
pub(crate) const IN_MODEL_4: &[(&str, &str, &str)] = &[
    (
        ",\"ParentNavigationProperty\":\"Superordinate\"",
        "",
        "entity type \"Org\": recursive hierarchy \"OrgTree\": it must have \"ParentNavigationProperty\", a string (rule 11)",
    ),
    (
        "\"ParentNavigationProperty\":\"Superordinate\"",
        "\"ParentNavigationProperty\":\"ParentID\"",
        "entity type \"Org\": recursive hierarchy \"OrgTree\": \"ParentNavigationProperty\" must name a navigation property to this type that has no \"$Collection\" (rule 11)",
    ),
    (
        "{\"NodeProperty\":\"ID\",\"ParentNavigationProperty\":\"Superordinate\"}",
        "\"Superordinate\"",
        "entity type \"Org\": recursive hierarchy \"OrgTree\": it must be an object (rule 11)",
    ),
    (
        "\"NodeProperty\":\"ID\",",
        "\"NodeProperty\":\"ID\",\"Depth\":3,",
        "entity type \"Org\": recursive hierarchy \"OrgTree\" may not have a member \"Depth\" (rule 11)",
    ),
    (
        "#Best\":\"Edm.Decimal\"",
        "#Best\":true",
        "entity type \"Sale\": custom aggregate \"Best\": its value must be a string (rule 12)",
    ),
    (
        "#Best\":\"Edm.Decimal\"",
        "#Best\":{\"$Type\":\"Edm.Decimal\"}",
        "entity type \"Sale\": custom aggregate \"Best\": its value must be a string (rule 12)",
    ),
    (
        "#Best\":\"Edm.Decimal\"",
        "#Best\":null",
        "entity type \"Sale\": custom aggregate \"Best\": its value must be a string (rule 12)",
    ),
    (
        "\"Of\":\"Amount\",",
        "",
        "entity type \"Sale\": custom aggregate \"Best\": its definition must have \"Of\", a string (rule 13)",
    ),
    (
        "\"With\":\"sum\"",
        "\"With\":\"average\"",
        "entity type \"Sale\": custom aggregate \"Best\": \"With\" must be sum, min, max or countdistinct (rule 13)",
    ),
    (
        ",\"Then\":\"max\"",
        "",
        "entity type \"Sale\": custom aggregate \"Best\": its definition must have both \"Per\", an array of at least one string, and \"Then\", a method as in \"With\", or neither (rule 13)",
    ),
    (
        "\"Per\":[\"CustomerID\"]",
        "\"Per\":\"CustomerID\"",
        "entity type \"Sale\": custom aggregate \"Best\": its definition must have both \"Per\", an array of at least one string, and \"Then\", a method as in \"With\", or neither (rule 13)",
    ),
    (
        "\"@Org.OData.Aggregation.V1.CustomAggregate#Best\":\"Edm.Decimal\",",
        "",
        "entity type \"Sale\": custom aggregate \"Best\": beside its definition the custom aggregate must stand in the type (rule 13)",
    ),
    (
        "\"Amount\":{\"$Type\"",
        "\"Best\":{\"$Type\"",
        "entity type \"Sale\": custom aggregate \"Best\": no property or navigation property of the type may have its name (rule 13)",
    ),
    (
        "\"With\":\"sum\",",
        "\"With\":\"sum\",\"By\":\"Org\",",
        "entity type \"Sale\": definition of custom aggregate \"Best\" may not have a member \"By\" (rule 13)",
    ),
    (
        "{\"Of\":\"Amount\",\"With\":\"sum\",\"Per\":[\"CustomerID\"],\"Then\":\"max\"}",
        "\"Amount\"",
        "entity type \"Sale\": custom aggregate \"Best\": its definition must be an object (rule 13)",
    ),
    (
        "\"Of\":\"Amount\"",
        "\"Of\":\"Amount + 1\"",
        "entity type \"Sale\": custom aggregate \"Best\": \"Of\" must be an expression (docs/grammar.md), and \"Amount + 1\" is none",
    ),
    (
        "\"Per\":[\"CustomerID\"]",
        "\"Per\":[\"Customer ID\"]",
        "entity type \"Sale\": custom aggregate \"Best\": \"Per\" must have paths, names with slashes between them, and \"Customer ID\" is none",
    ),
    (
        "\"Of\":\"Amount\"",
        "\"Of\":\"Price\"",
        "entity type \"Sale\": custom aggregate \"Best\": its definition has no type: \"Of\" and \"Per\" must name what the type has, no two paths of \"Per\" may be the same, \"With\" must fit the type of \"Of\", and \"Then\" the type of what \"With\" gives (docs/typing.md)",
    ),
    (
        "\"Of\":\"Amount\"",
        "\"Of\":\"CustomerID\"",
        "entity type \"Sale\": custom aggregate \"Best\": its definition has no type: \"Of\" and \"Per\" must name what the type has, no two paths of \"Per\" may be the same, \"With\" must fit the type of \"Of\", and \"Then\" the type of what \"With\" gives (docs/typing.md)",
    ),
    (
        "\"Per\":[\"CustomerID\"]",
        "\"Per\":[\"CustomerID\",\"CustomerID\"]",
        "entity type \"Sale\": custom aggregate \"Best\": its definition has no type: \"Of\" and \"Per\" must name what the type has, no two paths of \"Per\" may be the same, \"With\" must fit the type of \"Of\", and \"Then\" the type of what \"With\" gives (docs/typing.md)",
    ),
];

/// What stands in the file, what is written in its place, and what is told of that.
pub(crate) const IN_MODEL_5: &[(&str, &str, &str)] = &[
    (
        "\"Of\":\"Amount\",\"With\":\"sum\",\"Per\":[\"CustomerID\"],\"Then\":\"max\"",
        "\"Of\":\"CustomerID\",\"With\":\"min\",\"Per\":[\"OrgID\"],\"Then\":\"sum\"",
        "entity type \"Sale\": custom aggregate \"Best\": its definition has no type: \"Of\" and \"Per\" must name what the type has, no two paths of \"Per\" may be the same, \"With\" must fit the type of \"Of\", and \"Then\" the type of what \"With\" gives (docs/typing.md)",
    ),
    (
        "\"Per\":[\"CustomerID\"]",
        "\"Per\":[\"Customer\"]",
        "entity type \"Sale\": custom aggregate \"Best\": its definition has no type: \"Of\" and \"Per\" must name what the type has, no two paths of \"Per\" may be the same, \"With\" must fit the type of \"Of\", and \"Then\" the type of what \"With\" gives (docs/typing.md)",
    ),
    (
        "\"$Version\":\"4.01\",",
        "'$Version':'4.01',",
        "line 1, column 2: this is no JSON text",
    ),
    (
        "\"C\":{\"$Kind\":\"EntityContainer\",",
        "\"C\":{\"$Kind\":\"EntityContainer\", // sets",
        "line 16, column 33: this is no JSON text",
    ),
    (
        "\"W.Org\"}}}}",
        "\"W.Org\"},}}}",
        "line 17, column 99: this is no JSON text",
    ),
    (
        "\"W.Org\"}}}}",
        "\"W.Org\"}}}",
        "line 18, column 0: the JSON text ends too early",
    ),
];

/// What stands in the file, what is written in its place, and what is told of that.
pub(crate) const IN_DATA_1: &[(&str, &str, &str)] = &[
    (
        "\"Orgs\":[",
        "\"Org\":[",
        "member \"Org\": the model has no such entity set; it has \"Customers\", \"Orgs\", \"Sales\"",
    ),
    (
        "{\"Customers\":[",
        "{\"@context\":\"sales\",\"Customers\":[",
        "member \"@context\": the model has no such entity set; it has \"Customers\", \"Orgs\", \"Sales\"",
    ),
    (
        "{\"Customers\":[",
        "{\"Customers\":17,\"Zones\":[",
        "member \"Customers\": the entities of a set must stand in an array",
    ),
    (
        "{\"Customers\":[",
        "{\"Customers\":17,\"Clients\":[",
        "member \"Clients\": the model has no such entity set; it has \"Customers\", \"Orgs\", \"Sales\"",
    ),
    (
        "{\"ID\":\"Lab\"}",
        "[\"Lab\"]",
        "set \"Orgs\", entity 5 counted from 0: an entity must be an object, and this is an array",
    ),
    (
        "{\"ID\":\"Lab\"}",
        "\"Lab\"",
        "set \"Orgs\", entity 5 counted from 0: an entity must be an object, and this is a string",
    ),
    (
        "\"Name\":\"Joe\"",
        "\"name\":\"Joe\"",
        "set \"Customers\", entity 0 counted from 0: member \"name\": entity type \"Customer\" has no such property",
    ),
    (
        "\"CustomerID\":\"C3\"",
        "\"Customer\":\"C3\"",
        "set \"Sales\", entity 3 counted from 0: member \"Customer\": of entity type \"Sale\" it is a navigation property, and an entity has properties alone",
    ),
    (
        "\"Name\":\"Joe\",",
        "",
        "set \"Customers\", entity 0 counted from 0: property \"Name\" must have a value, since it is not nullable",
    ),
    (
        "\"Name\":\"Joe\"",
        "\"Name\":null",
        "set \"Customers\", entity 0 counted from 0: property \"Name\" must have a value, since it is not nullable",
    ),
    (
        "\"Name\":\"Joe\"",
        "\"Name\":17",
        "set \"Customers\", entity 0 counted from 0: property \"Name\" must be a string, and is 17",
    ),
    (
        "\"ID\":1,",
        "\"ID\":\"1a\",",
        "set \"Sales\", entity 0 counted from 0: property \"ID\" must be a whole number of 64 bits, as a number or as a string like \"12\", and is \"1a\"",
    ),
    (
        "\"ID\":1,",
        "\"ID\":1.0,",
        "set \"Sales\", entity 0 counted from 0: property \"ID\" must be a whole number of 64 bits, as a number or as a string like \"12\", and is 1.0",
    ),
    (
        "\"ID\":1,",
        "\"ID\":1e2,",
        "set \"Sales\", entity 0 counted from 0: property \"ID\" must be a whole number of 64 bits, as a number or as a string like \"12\", and is 100.0",
    ),
    (
        "\"Amount\":\"10.00\"",
        "\"Amount\":10.5",
        "set \"Sales\", entity 0 counted from 0: property \"Amount\" must be a decimal with at most 16 digits, 2 of them after the point, as a string like \"1.5\", or a whole number, and is 10.5",
    ),
    (
        "\"Amount\":\"10.00\"",
        "\"Amount\":\"10.005\"",
        "set \"Sales\", entity 0 counted from 0: property \"Amount\" must be a decimal with at most 16 digits, 2 of them after the point, as a string like \"1.5\", or a whole number, and is \"10.005\"",
    ),
    (
        "\"Amount\":\"10.00\"",
        "\"Amount\":\"1,000.00\"",
        "set \"Sales\", entity 0 counted from 0: property \"Amount\" must be a decimal with at most 16 digits, 2 of them after the point, as a string like \"1.5\", or a whole number, and is \"1,000.00\"",
    ),
    (
        "\"Amount\":\"10.00\"",
        "\"Amount\":[\"10.00\"]",
        "set \"Sales\", entity 0 counted from 0: property \"Amount\" must be a decimal with at most 16 digits, 2 of them after the point, as a string like \"1.5\", or a whole number, and is an array",
    ),
    (
        "\"Since\":\"2019-05-01\"",
        "\"Since\":\"01.05.2019\"",
        "set \"Customers\", entity 0 counted from 0: property \"Since\" must be a date as a string YYYY-MM-DD, and is \"01.05.2019\"",
    ),
    (
        "\"Since\":\"2019-05-01\"",
        "\"Since\":\"2019-02-29\"",
        "set \"Customers\", entity 0 counted from 0: property \"Since\" must be a date as a string YYYY-MM-DD, and is \"2019-02-29\"",
    ),
];

/// What stands in the file, what is written in its place, and what is told of that.
pub(crate) const IN_DATA_2: &[(&str, &str, &str)] = &[
    (
        "{\"ID\":\"Lab\"}",
        "{\"ID\":\"US\"}",
        "set \"Orgs\", entity 5 counted from 0: its key \"US\" is that of entity 2 too",
    ),
    (
        "\"ID\":\"C2\"",
        "\"ID\":\"C1\"",
        "set \"Customers\", entity 1 counted from 0: its key \"C1\" is that of entity 0 too",
    ),
    (
        "\"ID\":\"3\"",
        "\"ID\":1",
        "set \"Sales\", entity 2 counted from 0: its key 1 is that of entity 0 too",
    ),
    (
        "\"CustomerID\":\"C3\"",
        "\"CustomerID\":\"C9\"",
        "set \"Sales\", entity 3 counted from 0: navigation property \"Customer\": \"CustomerID\" is \"C9\", and no entity of set \"Customers\" has this key",
    ),
    (
        "\"OrgID\":\"EMEA\"",
        "\"OrgID\":\"Emea\"",
        "set \"Sales\", entity 2 counted from 0: navigation property \"Org\": \"OrgID\" is \"Emea\", and no entity of set \"Orgs\" has this key",
    ),
    (
        "{\"ID\":\"US\",\"ParentID\":\"Corp\"}",
        "{\"ID\":\"US\",\"ParentID\":\"\"}",
        "set \"Orgs\", entity 2 counted from 0: navigation property \"Superordinate\": \"ParentID\" is \"\", and no entity of set \"Orgs\" has this key",
    ),
    (
        "\"ID\":\"C2\"",
        "'ID':'C2'",
        "line 2, column 2: this is no JSON text",
    ),
    (
        "\"OrgID\":\"US\"}]}",
        "\"OrgID\":\"US\"},]}",
        "line 12, column 59: this is no JSON text",
    ),
    (
        "\"OrgID\":\"US\"}]}",
        "\"OrgID\":\"US\"}]",
        "line 13, column 0: the JSON text ends too early",
    ),
    (
        "\"Amount\":null",
        "\"Amount\":NULL",
        "line 10, column 20: this is no JSON text",
    ),
];
