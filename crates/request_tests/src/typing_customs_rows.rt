//! Edits of the sample's model file, with what is said of the definitions of custom aggregates in it.

/// The definition of the one custom aggregate of the sample.
pub(crate) const DEFINITION: &str =
    "{\"Of\":\"Amount\",\"With\":\"sum\",\"Per\":[\"CustomerID\"],\"Then\":\"max\"}";

/// Definitions that stand in its place, with the first definition without a typing by its set and its name, or nothing.
pub(crate) const DEFINITIONS: &str = r#"
// With a typing.
{"Of":"Amount","With":"sum"} =>
{"Of":"Amount","With":"sum","Per":["CustomerID","Customer/Country","Org/Superordinate/ID"],"Then":"sum"} =>
{"Of":"-Amount mul 0.1234567","With":"max"} =>
{"Of":"ID gt 1","With":"countdistinct","Per":["ID"],"Then":"sum"} =>
{"Of":"OrgID","With":"min","Per":["Amount"],"Then":"max"} =>
{"Of":"Customer/Since","With":"max"} =>
{"Of":"null eq null","With":"countdistinct"} =>
{"Of":"'it''s'","With":"min"} =>
{"Of":"2020-02-29","With":"max"} =>
{"Of":"Customer/Since","With":"countdistinct","Per":["Customer/Since"],"Then":"countdistinct"} =>
{"Of":"1","With":"sum","Per":["OrgID"],"Then":"min"} =>
{"Of":"( Amount )","With":"sum"} =>
// No expression.
{"Of":"","With":"sum"} => Sales Best
{"Of":" Amount","With":"sum"} => Sales Best
{"Of":"Amount ","With":"sum"} => Sales Best
{"Of":"Amount add","With":"sum"} => Sales Best
{"Of":"Amount,ID","With":"sum"} => Sales Best
{"Of":"Amount with sum as T","With":"sum"} => Sales Best
{"Of":"(Amount","With":"sum"} => Sales Best
{"Of":"$count","With":"sum"} => Sales Best
{"Of":"9223372036854775808","With":"sum"} => Sales Best
{"Of":"0.1234567890","With":"sum"} => Sales Best
{"Of":"2019-02-29","With":"max"} => Sales Best
{"Of":"'a","With":"min"} => Sales Best
{"Of":"eq","With":"sum"} => Sales Best
{"Of":"Amount mul ","With":"sum"} => Sales Best
// An expression without a typing.
{"Of":"Nope","With":"sum"} => Sales Best
{"Of":"Customer","With":"countdistinct"} => Sales Best
{"Of":"Customer/Nope","With":"max"} => Sales Best
{"Of":"Nope/ID","With":"min"} => Sales Best
{"Of":"Best","With":"sum"} => Sales Best
{"Of":"null","With":"countdistinct"} => Sales Best
{"Of":"Amount eq 'a'","With":"countdistinct"} => Sales Best
{"Of":"Amount mul 0.12345678","With":"max"} => Sales Best
{"Of":"not ID","With":"countdistinct"} => Sales Best
{"Of":"length(Amount)","With":"sum"} => Sales Best
{"Of":"Sales/Amount","With":"sum"} => Sales Best
// An operand that the method does not take.
{"Of":"ID gt 1","With":"sum"} => Sales Best
{"Of":"true","With":"min"} => Sales Best
{"Of":"not true","With":"max"} => Sales Best
{"Of":"OrgID","With":"sum"} => Sales Best
{"Of":"Customer/Since","With":"sum"} => Sales Best
{"Of":"true","With":"max","Per":["OrgID"],"Then":"countdistinct"} => Sales Best
// A group path that is no path, or leads to no property.
{"Of":"Amount","With":"sum","Per":[""],"Then":"max"} => Sales Best
{"Of":"Amount","With":"sum","Per":["CustomerID "],"Then":"max"} => Sales Best
{"Of":"Amount","With":"sum","Per":["CustomerID/"],"Then":"max"} => Sales Best
{"Of":"Amount","With":"sum","Per":["Amount add 1"],"Then":"max"} => Sales Best
{"Of":"Amount","With":"sum","Per":["as"],"Then":"max"} => Sales Best
{"Of":"Amount","With":"sum","Per":["Nope"],"Then":"max"} => Sales Best
{"Of":"Amount","With":"sum","Per":["Customer"],"Then":"max"} => Sales Best
{"Of":"Amount","With":"sum","Per":["CustomerID","Customer/Nope"],"Then":"max"} => Sales Best
{"Of":"Amount","With":"sum","Per":["Org/Superordinate"],"Then":"max"} => Sales Best
{"Of":"Amount","With":"sum","Per":["Best"],"Then":"max"} => Sales Best
{"Of":"Amount","With":"sum","Per":["Customer/Sales/ID"],"Then":"max"} => Sales Best
// Equal group paths.
{"Of":"Amount","With":"sum","Per":["OrgID","OrgID"],"Then":"max"} => Sales Best
{"Of":"Amount","With":"sum","Per":["Customer/Country","OrgID","Customer/Country"],"Then":"max"} => Sales Best
// An outer method that the inner result does not suit.
{"Of":"OrgID","With":"min","Per":["CustomerID"],"Then":"sum"} => Sales Best
{"Of":"Customer/Since","With":"max","Per":["CustomerID"],"Then":"sum"} => Sales Best
{"Of":"'a'","With":"max","Per":["ID"],"Then":"sum"} => Sales Best
// Parts that stand without one another, which is a fault of the model itself.
{"Of":"Amount","With":"sum","Per":["CustomerID"]} => no model
{"Of":"Amount","With":"sum","Then":"max"} => no model
{"Of":"Amount","With":"sum","Per":[],"Then":"max"} => no model
{"Of":"Amount","With":"average"} => no model
{"Of":"Amount","With":"sum","Per":["CustomerID"],"Then":"most"} => no model
{"Of":"Nope","With":"sum"},"@Org.OData.Aggregation.V1.CustomAggregate#Best2":"","@Local.Apply.V1.Definition#Best2":{"Of":"","With":"min"} => Sales Best
{"Of":"","With":"min"},"@Org.OData.Aggregation.V1.CustomAggregate#Best2":"","@Local.Apply.V1.Definition#Best2":{"Of":"Nope","With":"sum"} => Sales Best
"#;

/// Texts of the model file, what stands in their place, and the first definition without a typing.
pub(crate) const PLACES: &str = r#"
// The first by type name and then by name.
{"Of":"Amount","With":"sum","Per":["CustomerID"],"Then":"max"}} => {"Of":"Amount","With":"sum","Per":["CustomerID"],"Then":"max"},"@Org.OData.Aggregation.V1.CustomAggregate#Also":"","@Local.Apply.V1.Definition#Also":{"Of":"Nope","With":"sum"}} => Sales Also
{"Of":"Amount","With":"sum","Per":["CustomerID"],"Then":"max"}} => {"Of":"Amount","With":"sum","Per":["CustomerID"],"Then":"max"},"@Org.OData.Aggregation.V1.CustomAggregate#Worst":"","@Local.Apply.V1.Definition#Worst":{"Of":"Nope","With":"sum"}} => Sales Worst
{"Of":"Amount","With":"sum","Per":["CustomerID"],"Then":"max"}} => {"Of":"Amount","With":"sum","Per":["CustomerID"],"Then":"max"},"@Org.OData.Aggregation.V1.CustomAggregate#Worst":"","@Local.Apply.V1.Definition#Worst":{"Of":"ID","With":"countdistinct"}} =>
{"Of":"Amount","With":"sum","Per":["CustomerID"],"Then":"max"}} => {"Of":"Amount","With":"sum","Per":["CustomerID"],"Then":"max"},"@Org.OData.Aggregation.V1.CustomAggregate#Worst":"","@Local.Apply.V1.Definition#Worst":{"Of":"Nope","With":"sum"},"@Org.OData.Aggregation.V1.CustomAggregate#Also":"","@Local.Apply.V1.Definition#Also":{"Of":"Nope","With":"sum"}} => Sales Also
{"Of":"Amount","With":"sum","Per":["CustomerID"],"Then":"max"}} => {"Of":"Amount","With":"sum","Per":["CustomerID"],"Then":"max"},"@Org.OData.Aggregation.V1.CustomAggregate#Worst":"","@Local.Apply.V1.Definition#Worst":{"Of":"","With":"sum"},"@Org.OData.Aggregation.V1.CustomAggregate#Also":"","@Local.Apply.V1.Definition#Also":{"Of":"Nope","With":"sum"}} => Sales Also
{"Of":"Amount","With":"sum","Per":["CustomerID"],"Then":"max"}} => {"Of":"Amount","With":"sum","Per":["CustomerID"],"Then":"max"},"@Org.OData.Aggregation.V1.CustomAggregate#Worst":"","@Local.Apply.V1.Definition#Worst":{"Of":"Nope","With":"sum"},"@Org.OData.Aggregation.V1.CustomAggregate#Also":"","@Local.Apply.V1.Definition#Also":{"Of":"","With":"sum"}} => Sales Also
"$Partner":"Customer"}} => "$Partner":"Customer"},"@Org.OData.Aggregation.V1.CustomAggregate#Zone":"","@Local.Apply.V1.Definition#Zone":{"Of":"Nope","With":"sum"}} => Customers Zone
"$Partner":"Customer"}} => "$Partner":"Customer"},"@Org.OData.Aggregation.V1.CustomAggregate#Zone":"","@Local.Apply.V1.Definition#Zone":{"Of":"ID","With":"countdistinct"},"@Org.OData.Aggregation.V1.CustomAggregate#Yard":"","@Local.Apply.V1.Definition#Yard":{"Of":"Country","With":"sum"}} => Customers Yard
"$Partner":"Customer"}} => "$Partner":"Customer"},"@Org.OData.Aggregation.V1.CustomAggregate#Zone":"","@Local.Apply.V1.Definition#Zone":{"Of":"Amount","With":"sum"}} => Customers Zone
"ParentNavigationProperty":"Superordinate"}} => "ParentNavigationProperty":"Superordinate"},"@Org.OData.Aggregation.V1.CustomAggregate#Deep":"","@Local.Apply.V1.Definition#Deep":{"Of":"Superordinate/Superordinate/ID","With":"max","Per":["ParentID"],"Then":"countdistinct"}} =>
"ParentNavigationProperty":"Superordinate"}} => "ParentNavigationProperty":"Superordinate"},"@Org.OData.Aggregation.V1.CustomAggregate#Deep":"","@Local.Apply.V1.Definition#Deep":{"Of":"Superordinate","With":"max"}} => Orgs Deep
// A term alone makes no custom aggregate.
"@Local.Apply.V1.Definition#Best":{"Of":"Amount","With":"sum","Per":["CustomerID"],"Then":"max"} => "@Local.Apply.V1.Other#Best":{"Of":"Nope","With":"sum"} =>
"#;
