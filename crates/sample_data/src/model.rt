//! The text of the sample model.
ghost use Rattle.std.specs.Prelude.{◌≡◌};
ghost use Rattle.edm_model.specs.ModelFile.{model_reading, Model'};
ghost use Rattle.edm_model.specs.SampleModel.{sample_model};

/// The sample model as CSDL JSON.
const SAMPLE_MODEL: &[u8] = b"{\"$Version\":\"4.01\",\"$EntityContainer\":\"W.C\",\"W\":{\
\"Sale\":{\"$Kind\":\"EntityType\",\"$Key\":[\"ID\"],\"ID\":{\"$Type\":\"Edm.Int64\"},\
\"Amount\":{\"$Type\":\"Edm.Decimal\",\"$Precision\":16,\"$Scale\":2,\"$Nullable\":true},\
\"CustomerID\":{},\"OrgID\":{\"$Nullable\":true},\
\"Customer\":{\"$Kind\":\"NavigationProperty\",\"$Type\":\"W.Customer\",\"$Partner\":\"Sales\",\"$ReferentialConstraint\":{\"CustomerID\":\"ID\"}},\
\"Org\":{\"$Kind\":\"NavigationProperty\",\"$Type\":\"W.Org\",\"$Nullable\":true,\"$ReferentialConstraint\":{\"OrgID\":\"ID\"}},\
\"@Org.OData.Aggregation.V1.CustomAggregate#Best\":\"Edm.Decimal\",\
\"@Local.Apply.V1.Definition#Best\":{\"Of\":\"Amount\",\"With\":\"sum\",\"Per\":[\"CustomerID\"],\"Then\":\"max\"}},\
\"Customer\":{\"$Kind\":\"EntityType\",\"$Key\":[\"ID\"],\"ID\":{},\"Name\":{},\"Country\":{},\"Since\":{\"$Type\":\"Edm.Date\",\"$Nullable\":true},\
\"Sales\":{\"$Kind\":\"NavigationProperty\",\"$Collection\":true,\"$Type\":\"W.Sale\",\"$Partner\":\"Customer\"}},\
\"Org\":{\"$Kind\":\"EntityType\",\"$Key\":[\"ID\"],\"ID\":{},\"ParentID\":{\"$Nullable\":true},\
\"Superordinate\":{\"$Kind\":\"NavigationProperty\",\"$Type\":\"W.Org\",\"$Nullable\":true,\"$ReferentialConstraint\":{\"ParentID\":\"ID\"}},\
\"@Org.OData.Aggregation.V1.RecursiveHierarchy#OrgTree\":{\"NodeProperty\":\"ID\",\"ParentNavigationProperty\":\"Superordinate\"}},\
\"C\":{\"$Kind\":\"EntityContainer\",\"Sales\":{\"$Collection\":true,\"$Type\":\"W.Sale\"},\
\"Customers\":{\"$Collection\":true,\"$Type\":\"W.Customer\"},\"Orgs\":{\"$Collection\":true,\"$Type\":\"W.Org\"}}}}";

/// The file of the sample model.
pub fn sample_model_text() -> &'static [u8]
    ensures value { model_reading result.now ≡ Model' sample_model }
{
    SAMPLE_MODEL
}
