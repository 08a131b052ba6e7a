//! Model files that are read and refused, and what is read of the sample. The expected answers come from the rules of
//! model files and from a program that was written apart from this one.
ghost use Rattle.edm_model.specs.LookUps.{IsSet, IsNavigation};

use edm_model::{Method, Model, ModelRefused, NavId, SetId, read_model};
use edm_schema::{is_model, read_schema};
use edm_values::EdmType;
use serde_json::Value;
use std::alloc::Global;
use std::process::Abort;
use std::test::Fail;

/// The sample: sales to customers by organisations, which form a hierarchy.
const SAMPLE: &str =
    "{\"$Version\":\"4.01\",\"$EntityContainer\":\"W.C\",\"W\":{\"Sale\":{\"$Kind\":\"EntityType\",\"$Key\":[\"ID\"],\"ID\":{\"$Type\":\"Edm.Int64\"},\"Amount\":{\"$Type\":\"Edm.Decimal\",\"$Precision\":16,\"$Scale\":2,\"$Nullable\":true},\"CustomerID\":{},\"OrgID\":{\"$Nullable\":true},\"Customer\":{\"$Kind\":\"NavigationProperty\",\"$Type\":\"W.Customer\",\"$Partner\":\"Sales\",\"$ReferentialConstraint\":{\"CustomerID\":\"ID\"}},\"Org\":{\"$Kind\":\"NavigationProperty\",\"$Type\":\"W.Org\",\"$Nullable\":true,\"$ReferentialConstraint\":{\"OrgID\":\"ID\"}},\"@Org.OData.Aggregation.V1.CustomAggregate#Best\":\"Edm.Decimal\",\"@Local.Apply.V1.Definition#Best\":{\"Of\":\"Amount\",\"With\":\"sum\",\"Per\":[\"CustomerID\"],\"Then\":\"max\"}},\"Customer\":{\"$Kind\":\"EntityType\",\"$Key\":[\"ID\"],\"ID\":{},\"Name\":{},\"Country\":{},\"Since\":{\"$Type\":\"Edm.Date\",\"$Nullable\":true},\"Sales\":{\"$Kind\":\"NavigationProperty\",\"$Collection\":true,\"$Type\":\"W.Sale\",\"$Partner\":\"Customer\"}},\"Org\":{\"$Kind\":\"EntityType\",\"$Key\":[\"ID\"],\"ID\":{},\"ParentID\":{\"$Nullable\":true},\"Superordinate\":{\"$Kind\":\"NavigationProperty\",\"$Type\":\"W.Org\",\"$Nullable\":true,\"$ReferentialConstraint\":{\"ParentID\":\"ID\"}},\"@Org.OData.Aggregation.V1.RecursiveHierarchy#OrgTree\":{\"NodeProperty\":\"ID\",\"ParentNavigationProperty\":\"Superordinate\"}},\"C\":{\"$Kind\":\"EntityContainer\",\"Sales\":{\"$Collection\":true,\"$Type\":\"W.Sale\"},\"Customers\":{\"$Collection\":true,\"$Type\":\"W.Customer\"},\"Orgs\":{\"$Collection\":true,\"$Type\":\"W.Org\"}}}}";

/// What bytes are as a model file.
fn reading(alloc: Global, file: &[u8]) -> &'static str {
    match read_model(alloc, file).err() {
        None => "model",
        Some(ModelRefused::TooLong) => "too long",
        Some(ModelRefused::Json) => "no JSON",
        Some(ModelRefused::Model) => "no model",
        Some(ModelRefused::Memory) => "no memory",
    }
}

/// Texts of the sample, what is written in their place, and what the file then is.
const RULES: &[(&str, &str, &str)] = &[
    ("\"$Version\":\"4.01\"", "\"$Version\":4", "no model"),
    ("\"W.C\"", "\"W\"", "no model"),
    (
        "\"$Version\":\"4.01\",",
        "\"$Version\":\"4.01\",\"Other\":{},",
        "no model",
    ),
    ("\"C\":{\"$Kind\"", "\"D\":{\"$Kind\"", "no model"),
    (
        "\"C\":{\"$Kind\"",
        "\"D\":{\"$Kind\":\"EntityContainer\"},\"C\":{\"$Kind\"",
        "no model",
    ),
    (
        "\"$Key\":[\"ID\"],\"ID\":{\"$Type\":\"Edm.Int64\"}",
        "\"$Key\":[\"OrgID\"],\"ID\":{\"$Type\":\"Edm.Int64\"}",
        "no model",
    ),
    (
        "\"$Type\":\"Edm.Date\"",
        "\"$Type\":\"Edm.Double\"",
        "no model",
    ),
    (
        "\"$Precision\":16,\"$Scale\":2,",
        "\"$Precision\":16,",
        "no model",
    ),
    ("\"$Precision\":16,", "", "model"),
    ("\"$Precision\":16,", "\"$Precision\":1,", "no model"),
    ("\"$Scale\":2", "\"$Scale\":10", "no model"),
    ("\"Country\":{}", "\"Country\":{\"$Scale\":2}", "no model"),
    (
        "\"Country\":{}",
        "\"Country\":{\"$MaxLength\":2,\"@Core.Description\":\"x\"}",
        "model",
    ),
    ("\"Country\":{}", "\"Country\":{\"$Scales\":2}", "no model"),
    (
        "\"$Type\":\"W.Customer\",\"$Partner\"",
        "\"$Type\":\"W.Nobody\",\"$Partner\"",
        "no model",
    ),
    ("{\"OrgID\":\"ID\"}", "{\"OrgID\":\"ParentID\"}", "no model"),
    (
        "{\"OrgID\":\"ID\"}",
        "{\"OrgID\":\"ID\",\"CustomerID\":\"ID\"}",
        "no model",
    ),
    (
        "\"$Type\":\"W.Sale\",\"$Partner\":\"Customer\"",
        "\"$Type\":\"W.Sale\",\"$Partner\":\"Org\"",
        "no model",
    ),
    (
        "\"Orgs\":{\"$Collection\":true,\"$Type\":\"W.Org\"}",
        "\"Orgs\":{\"$Collection\":true,\"$Type\":\"W.Sale\"}",
        "no model",
    ),
    ("\"Name\":{}", "\"and\":{}", "no model"),
];

/// The same of further rules.
const MORE_RULES: &[(&str, &str, &str)] = &[
    (
        "\"NodeProperty\":\"ID\"",
        "\"NodeProperty\":\"ParentID\"",
        "no model",
    ),
    ("\"Edm.Decimal\",\"@Local", "1,\"@Local", "no model"),
    ("CustomAggregate#Best", "CustomAggregate#Worst", "no model"),
    ("\"With\":\"sum\"", "\"With\":\"average\"", "no model"),
    ("\"Then\":\"max\"", "\"Then\":\"most\"", "no model"),
    ("\"Per\":[\"CustomerID\"],", "", "no model"),
    ("\"$Precision\":16,", "\"$Precision\":19,", "no model"),
    ("\"$Scale\":2", "\"$Scale\":9", "model"),
    (
        "\"ID\":{\"$Type\":\"Edm.Int64\"}",
        "\"ID\":{\"$Type\":\"Edm.Int64\",\"$Nullable\":true}",
        "no model",
    ),
    (
        "\"ID\":{\"$Type\":\"Edm.Int64\"}",
        "\"ID\":{\"$Type\":\"Edm.Boolean\"}",
        "no model",
    ),
    (
        "\"Country\":{}",
        "\"Country\":{\"$Kind\":\"Property\",\"$Type\":\"Edm.Boolean\"}",
        "model",
    ),
    ("\"Name\":{}", "\"Name\":{\"$Nullable\":null}", "no model"),
    (
        "\"$Key\":[\"ID\"],\"ID\":{},\"Name\"",
        "\"$Key\":[\"ID\",\"Name\"],\"ID\":{},\"Name\"",
        "no model",
    ),
    (
        "\"$Key\":[\"ID\"],\"ID\":{},\"Name\"",
        "\"$Key\":[\"Nobody\"],\"ID\":{},\"Name\"",
        "no model",
    ),
    (
        "\"Orgs\":{\"$Collection\":true,\"$Type\":\"W.Org\"}",
        "\"Orgs\":{\"$Collection\":true,\"$Type\":\"W.Org\"},\"Units\":{\"$Collection\":true,\"$Type\":\"W.Org\"}",
        "no model",
    ),
    (
        ",\"Orgs\":{\"$Collection\":true,\"$Type\":\"W.Org\"}",
        "",
        "no model",
    ),
    (
        "\"ParentNavigationProperty\":\"Superordinate\"",
        "\"ParentNavigationProperty\":\"ParentID\"",
        "no model",
    ),
    ("Definition#Best", "Definition#Amount", "no model"),
    ("\"Per\":[\"CustomerID\"]", "\"Per\":[]", "no model"),
    ("{\"$Version\"", "[\"$Version\"", "no JSON"),
];

#[test]
fn each_rule_broken_once(rt: HostRuntime) -> Result<(), Fail> {
    let alloc = rt.alloc();
    assert_eq!(rt; reading(alloc, SAMPLE.as_bytes()), "model");
    for rows in [RULES, MORE_RULES] {
        for (from, to, wanted) in rows {
            let text = SAMPLE.replace(alloc, from, to)?;
            assert_eq!(rt; reading(alloc, text.as_bytes()), *wanted, "{from} to {to}");
        }
    }
    Ok(())
}

/// Files that are short.
const SHORT: &[(&[u8], &str)] = &[
    (b"", "no JSON"),
    (b"{", "no JSON"),
    (b"[]", "no JSON"),
    (b"{}", "no model"),
    (b"\xff{}", "no JSON"),
];

/// Texts, how often they stand in a file, and what the file then is. The last file has one byte past the limit.
const REPEATED: &[(&str, usize, &str)] = &[
    ("[", 128, "no JSON"),
    ("                 ", 61_681, "too long"),
];

#[test]
fn texts_that_are_no_objects(rt: HostRuntime) -> Result<(), Fail> {
    let alloc = rt.alloc();
    for (file, wanted) in SHORT {
        assert_eq!(rt; reading(alloc, file), *wanted, "{file:?}");
    }
    for (text, times, wanted) in REPEATED {
        let file = text.repeat(alloc, *times)?;
        assert_eq!(rt; reading(alloc, file.as_bytes()), *wanted, "{text}");
    }
    Ok(())
}

/// What is listed of a file: its namespace, how many types and entity sets it has, and whether it is a model.
type Listed = (&'static str, usize, usize, bool);

/// Compares what is listed of a tree.
fn expect_tree(
    rt: &impl Abort,
    alloc: Global,
    root: &Value,
    expected: &Listed,
) -> Result<(), Fail> {
    let schema = read_schema(alloc, root)?;
    let (namespace, types, sets, accepted) = *expected;
    let counts = (schema.types.len(), schema.sets.len());
    assert_eq!(rt; (schema.namespace, counts), (namespace, (types, sets)));
    assert_eq!(rt; is_model(alloc, &schema).ok(), Some(accepted));
    Ok(())
}

/// Compares what is listed of a file.
fn expect_file(rt: &impl Abort, alloc: Global, file: &str, expected: &Listed) -> Result<(), Fail> {
    let root = Value::from_slice(alloc, file.as_bytes())?;
    expect_tree(rt, alloc, &root, expected)
}

#[test]
fn trees_of_files_are_listed_and_judged(rt: HostRuntime) -> Result<(), Fail> {
    let alloc = rt.alloc();
    expect_file(&rt, alloc, SAMPLE, &("W", 3, 3, true))?;
    expect_file(&rt, alloc, "{}", &("", 0, 0, false))?;
    let partnerless = SAMPLE.replace(alloc, "\"$Partner\":\"Customer\"", "\"$Partner\":\"Org\"")?;
    expect_file(&rt, alloc, partnerless.as_str(), &("W", 3, 3, false))
}

/// The set of this name, which is there.
fn found_set(rt: &impl Abort, model: &Model, name: &str) -> SetId
    ensures { IsSet model.now result }
{
    match model.set_named(name) {
        Some(found) => found,
        None => panic!(rt; "no set {name}"),
    }
}

/// Finds a set of this type with this key, and with so many properties and navigation properties.
fn expect_set(
    rt: &impl Abort,
    model: &Model,
    set: &str,
    of: &str,
    key: &str,
    parts: (usize, usize),
) {
    let found = found_set(rt, model, set);
    let entity_type = model.set_type(found);
    let names = (model.set_name(found), model.type_name(entity_type));
    let key_name = model.prop_name(model.key_of(entity_type));
    let counts = (
        model.props(entity_type).len(),
        model.navs(entity_type).len(),
    );
    assert_eq!(rt; (names, key_name), ((set, of), key));
    assert_eq!(rt; (model.type_set(entity_type), counts), (found, parts));
}

/// Finds a property of a set's type that has this type, and may be null or not.
fn expect_property(
    rt: &impl Abort,
    model: &Model,
    set: &str,
    name: &str,
    kind: EdmType,
    nullable: bool,
) {
    let of = model.set_type(found_set(rt, model, set));
    match model.prop_named(of, name) {
        Some(found) => {
            assert_eq!(rt; model.prop_name(found), name);
            let (of, null) = (model.prop_type(found), model.prop_nullable(found));
            assert_eq!(rt; (of, null), (kind, nullable), "{name}");
        }
        None => panic!(rt; "no property {name}"),
    }
}

/// The name of what leads back from a navigation property: its partner, or the property that refers to the key.
fn back_name(model: &Model, navigation: NavId) -> &str
    requires { IsNavigation model.now navigation }
{
    if model.nav_many(navigation) {
        model.nav_name(model.nav_partner(navigation))
    } else {
        model.prop_name(model.nav_dependent(navigation))
    }
}

/// Finds a navigation property of a set's type that leads to this type, to many or to one, with this way back.
fn expect_navigation(
    rt: &impl Abort,
    model: &Model,
    set: &str,
    name: &str,
    target: &str,
    many: bool,
    back: &str,
) {
    let of = model.set_type(found_set(rt, model, set));
    match model.nav_named(of, name) {
        Some(found) => {
            let to = model.type_name(model.nav_target(found));
            assert_eq!(rt; (model.nav_name(found), to), (name, target));
            assert_eq!(rt;
                (model.nav_many(found), back_name(model, found)),
                (many, back)
            );
        }
        None => panic!(rt; "no navigation property {name}"),
    }
}

/// Names that are none of a set.
const ABSENT: &[&str] = &[
    "",
    "Customer",
    "Customers ",
    "Org",
    "Orgz",
    "Sale",
    "sales",
    "Saless",
];

/// Finds the sets by their names, and nothing by other names.
fn expect_sets(rt: &impl Abort, model: &Model) {
    assert_eq!(rt; model.sets().len(), 3);
    expect_set(rt, model, "Customers", "Customer", "ID", (4, 1));
    expect_set(rt, model, "Orgs", "Org", "ID", (2, 1));
    expect_set(rt, model, "Sales", "Sale", "ID", (4, 2));
    for absent in ABSENT {
        assert!(rt; model.set_named(absent).is_none(), "the set {absent}");
    }
}

/// Sets, their properties with their types, and whether they may be null.
const PROPERTIES: &[(&str, &str, EdmType, bool)] = &[
    ("Customers", "Country", EdmType::Text, false),
    ("Customers", "Since", EdmType::Day, true),
    ("Orgs", "ParentID", EdmType::Text, true),
    (
        "Sales",
        "Amount",
        EdmType::Dec {
            scale: 2,
            precision: 16,
        },
        true,
    ),
    ("Sales", "CustomerID", EdmType::Text, false),
    ("Sales", "ID", EdmType::Int, false),
    ("Sales", "OrgID", EdmType::Text, true),
];

/// Sets, their navigation properties, the types that these lead to, whether they lead to many, and what leads back.
const NAVIGATIONS: &[(&str, &str, &str, bool, &str)] = &[
    ("Customers", "Sales", "Sale", true, "Customer"),
    ("Orgs", "Superordinate", "Org", false, "ParentID"),
    ("Sales", "Customer", "Customer", false, "CustomerID"),
    ("Sales", "Org", "Org", false, "OrgID"),
];

/// Finds properties and navigation properties by their names.
fn expect_properties(rt: &impl Abort, model: &Model) {
    for (set, name, kind, nullable) in PROPERTIES {
        expect_property(rt, model, set, name, *kind, *nullable);
    }
    for (set, name, target, many, back) in NAVIGATIONS {
        expect_navigation(rt, model, set, name, target, *many, back);
    }
}

/// Finds the hierarchy by its qualifier.
fn expect_hierarchy(rt: &impl Abort, model: &Model) {
    let orgs = found_set(rt, model, "Orgs");
    let Some(tree) = model.hier_named(orgs, "OrgTree") else {
        panic!(rt; "no hierarchy");
    };
    assert_eq!(rt; model.hiers(), [tree].as_slice());
    let parent = model.nav_name(model.hier_parent(tree));
    assert_eq!(rt;
        (model.hier_name(tree), parent),
        ("OrgTree", "Superordinate")
    );
    assert_eq!(rt; model.hier_set(tree), orgs);
    assert!(rt; model.hier_named(orgs, "Best").is_none());
}

/// Finds the custom aggregate by its name.
fn expect_custom(rt: &impl Abort, model: &Model) {
    let sale = model.set_type(found_set(rt, model, "Sales"));
    let best = model.custom_named(sale, "Best");
    assert_eq!(rt; model.customs().len(), 1);
    let custom = &model.customs()[0];
    assert_eq!(rt; (Some(custom.id), custom.owner), (best, sale));
    assert_eq!(rt;
        (custom.name.as_str(), custom.of.as_str()),
        ("Best", "Amount")
    );
    assert_eq!(rt;
        (custom.method, custom.outer),
        (Method::Sum, Some(Method::Max))
    );
    let groups = custom.per.as_slice();
    assert_eq!(rt; groups.len(), 1);
    assert_eq!(rt; groups[0].as_str(), "CustomerID");
}

#[test]
fn parts_of_a_model_are_found_by_name(rt: HostRuntime) -> Result<(), Fail> {
    let model = read_model(rt.alloc(), SAMPLE.as_bytes())?;
    expect_sets(&rt, &model);
    expect_properties(&rt, &model);
    expect_hierarchy(&rt, &model);
    expect_custom(&rt, &model);
    Ok(())
}
