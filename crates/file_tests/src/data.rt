//! Worked examples of data files. The expected answers come from the rules of the data file.
ghost use Rattle.std.specs.Prelude.{◌≡◌, IfSome};
ghost use Rattle.edm_model.specs.LookUps.{IsSet, IsNavigation, set_type};

use edm_data::{Data, DataRefused, EntityRef, PropertyValues, read_data};
use edm_model::{Model, NavId, SetId, read_model};
use edm_values::Seen;
use std::alloc::Global;
use std::process::Abort;

/// Organisations, each with a parent.
const MODEL: &str =
    "{\"$Version\":\"4.01\",\"$EntityContainer\":\"S.C\",\"S\":{\"Org\":{\"$Kind\":\"EntityType\",\"$Key\":[\"ID\"],\"ID\":{},\"ParentID\":{\"$Nullable\":true},\"Level\":{\"$Type\":\"Edm.Int64\",\"$Nullable\":true},\"Size\":{\"$Type\":\"Edm.Decimal\",\"$Scale\":2,\"$Precision\":4,\"$Nullable\":true},\"Parent\":{\"$Kind\":\"NavigationProperty\",\"$Type\":\"S.Org\",\"$ReferentialConstraint\":{\"ParentID\":\"ID\"}}},\"C\":{\"$Kind\":\"EntityContainer\",\"Orgs\":{\"$Collection\":true,\"$Type\":\"S.Org\"}}}}";

/// Sales to customers by organisations, each organisation below another or none.
const SALES_MODEL: &str =
    "{\"$Version\":\"4.01\",\"$EntityContainer\":\"W.C\",\"W\":{\"Sale\":{\"$Kind\":\"EntityType\",\"$Key\":[\"ID\"],\"ID\":{\"$Type\":\"Edm.Int64\"},\"CustomerID\":{},\"OrgID\":{\"$Nullable\":true},\"Customer\":{\"$Kind\":\"NavigationProperty\",\"$Type\":\"W.Customer\",\"$Partner\":\"Sales\",\"$ReferentialConstraint\":{\"CustomerID\":\"ID\"}},\"Org\":{\"$Kind\":\"NavigationProperty\",\"$Type\":\"W.Org\",\"$ReferentialConstraint\":{\"OrgID\":\"ID\"}}},\"Customer\":{\"$Kind\":\"EntityType\",\"$Key\":[\"ID\"],\"ID\":{},\"Sales\":{\"$Kind\":\"NavigationProperty\",\"$Collection\":true,\"$Type\":\"W.Sale\",\"$Partner\":\"Customer\"}},\"Org\":{\"$Kind\":\"EntityType\",\"$Key\":[\"ID\"],\"ID\":{},\"ParentID\":{\"$Nullable\":true},\"Superordinate\":{\"$Kind\":\"NavigationProperty\",\"$Type\":\"W.Org\",\"$ReferentialConstraint\":{\"ParentID\":\"ID\"}}},\"C\":{\"$Kind\":\"EntityContainer\",\"Sales\":{\"$Collection\":true,\"$Type\":\"W.Sale\"},\"Customers\":{\"$Collection\":true,\"$Type\":\"W.Customer\"},\"Orgs\":{\"$Collection\":true,\"$Type\":\"W.Org\"}}}}";

/// Six sales, the fifth without an organisation; the last customer has none, and two organisations have no parent.
const SALES: &str =
    "{\"Customers\":[{\"ID\":\"C1\"},{\"ID\":\"C2\"},{\"ID\":\"C3\"},{\"ID\":\"C4\"}],\"Orgs\":[{\"ID\":\"Corp\"},{\"ID\":\"EMEA\",\"ParentID\":\"Corp\"},{\"ID\":\"US\",\"ParentID\":\"Corp\"},{\"ID\":\"West\",\"ParentID\":\"US\"},{\"ID\":\"East\",\"ParentID\":\"US\"},{\"ID\":\"Lab\"}],\"Sales\":[{\"ID\":1,\"CustomerID\":\"C1\",\"OrgID\":\"West\"},{\"ID\":\"2\",\"CustomerID\":\"C1\",\"OrgID\":\"East\"},{\"ID\":\"3\",\"CustomerID\":\"C2\",\"OrgID\":\"EMEA\"},{\"ID\":\"4\",\"CustomerID\":\"C3\",\"OrgID\":\"West\"},{\"ID\":\"5\",\"CustomerID\":\"C2\"},{\"ID\":\"6\",\"CustomerID\":\"C1\",\"OrgID\":\"US\"}]}";

/// The navigation at this place of a set's type, in byte order of names.
fn nav_at(model: &Model, s: SetId, n: usize) -> Option<NavId>
    requires { IsSet model.now s }
    ensures of { IfSome result (λ nav. nav.of ≡ set_type model.now s) }
    ensures there { IfSome result (IsNavigation model.now) }
{
    let navs = model.navs(model.set_type(s));
    if n < navs.len() {
        let nav = navs[n];
        Some(nav)
    } else {
        None
    }
}

/// The place of the entity of a set that has this key.
fn place_of(store: &Data, set: &str, key: Seen<'_>) -> Option<u32> {
    let s = store.model().set_named(set)?;
    let found = store.by_key(s, key)?;
    Some(found.at)
}

/// The place of what the entity at place `k` of a set refers to by the navigation at place `n`.
fn followed(store: &Data, set: &str, k: u32, n: usize) -> Option<u32> {
    let s = store.model().set_named(set)?;
    let nav = nav_at(store.model(), s, n)?;
    let found = store.follow(EntityRef { set: s, at: k }, nav)?;
    Some(found.at)
}

/// The entities that the navigation at place `n` relates the entity at place `k` of a set to.
fn related(store: &Data, set: &str, k: u32, n: usize) -> Option<Vec<EntityRef>> {
    let s = store.model().set_named(set)?;
    let nav = nav_at(store.model(), s, n)?;
    store.related(EntityRef { set: s, at: k }, nav).ok()
}

/// Sets, keys that are numbers, texts or, without either, null, and the places of the entities that have them.
const FOUND: &[(&str, Option<i64>, &str, Option<u32>)] = &[
    ("Sales", Some(1), "", Some(0)),
    ("Sales", Some(5), "", Some(4)),
    ("Sales", Some(7), "", None),
    ("Sales", None, "5", None),
    ("Orgs", None, "Corp", Some(0)),
    ("Orgs", None, "Lab", Some(5)),
    ("Orgs", None, "lab", None),
    ("Orgs", None, "", None),
];

/// The key that is this number, this text, or null.
fn key_of(number: Option<i64>, text: &str) -> Seen<'_> {
    match number {
        Some(number) => Seen::Int(number),
        None if text.is_empty() => Seen::Null,
        None => Seen::Text(text),
    }
}

/// Sets, the places of entities, those of navigation properties, and those of what the entities refer to by them.
const FOLLOWED: &[(&str, u32, usize, Option<u32>)] = &[
    ("Sales", 0, 0, Some(0)),
    ("Sales", 3, 0, Some(2)),
    ("Sales", 0, 1, Some(3)),
    ("Sales", 4, 1, None),
    ("Orgs", 0, 0, None),
    ("Orgs", 4, 0, Some(2)),
    ("Customers", 0, 0, None),
    ("Sales", 6, 0, None),
];

/// Finds entities by their keys, and follows references.
fn expect_places(rt: &impl Abort, store: &Data) {
    for (set, number, text, place) in FOUND {
        let key = key_of(*number, text);
        assert_eq!(rt; place_of(store, set, key), *place, "{key:?} in {set}");
    }
    for (set, k, n, place) in FOLLOWED {
        assert_eq!(rt;
            followed(store, set, *k, *n),
            *place,
            "from {k} of {set} by {n}"
        );
    }
}

/// Sets, the places of entities, and those of the sales that they are related to, in data order.
const RELATED: &[(&str, u32, &[u32])] = &[
    ("Customers", 0, &[0, 1, 5]),
    ("Customers", 1, &[2, 4]),
    ("Customers", 2, &[3]),
    ("Customers", 3, &[]),
    ("Customers", 4, &[]),
    ("Sales", 0, &[]),
];

/// Finds related entities.
fn expect_related(rt: &impl Abort, store: &Data) {
    let sales = store.model().set_named("Sales");
    for (set, k, places) in RELATED {
        let Some(found) = related(store, set, *k, 0) else {
            panic!(rt; "no list from {k} of {set}");
        };
        assert_eq!(rt; found.len(), places.len(), "from {k} of {set}");
        for (entity, place) in found.iter().zip(places.iter()) {
            assert_eq!(rt; Some(entity.set), sales, "from {k} of {set}");
            assert_eq!(rt; entity.at, *place, "from {k} of {set}");
        }
    }
}

/// The values of a property of a set.
fn values_of<'a>(store: &'a Data, set: &str, property: &str) -> Option<PropertyValues<'a>> {
    let model = store.model();
    let s = model.set_named(set)?;
    let p = model.prop_named(model.set_type(s), property)?;
    Some(store.values(s, p))
}

/// The numbers of the texts of a property, where they are kept once each.
fn numbers_of<'a>(store: &'a Data, set: &str, property: &str) -> Option<&'a [u32]> {
    Some(values_of(store, set, property)?.texts()?.numbers())
}

/// The text that has a number there.
fn text_of<'a>(store: &'a Data, set: &str, property: &str, number: u32) -> Option<&'a str> {
    let texts = values_of(store, set, property)?.texts()?;
    if (number as usize) < texts.count() {
        return Some(texts.text(number));
    }
    None
}

/// Texts are kept once each where at most half of them are distinct, and none is null.
fn expect_lists(rt: &impl Abort, store: &Data) {
    let numbers: &[u32] = &[0, 0, 1, 2, 1, 0];
    assert_eq!(rt; numbers_of(store, "Sales", "CustomerID"), Some(numbers));
    assert_eq!(rt; text_of(store, "Sales", "CustomerID", 2), Some("C3"));
    assert_eq!(rt; text_of(store, "Sales", "CustomerID", 3), None);
    assert_eq!(rt; numbers_of(store, "Sales", "OrgID"), None, "one is null");
    assert_eq!(rt;
        numbers_of(store, "Customers", "ID"),
        None,
        "all are distinct"
    );
    let Some(values) = values_of(store, "Sales", "ID") else {
        panic!(rt; "no property");
    };
    let ints: &[i64] = &[1, 2, 3, 4, 5, 6];
    assert_eq!(rt; values.ints(), Some(ints));
    assert!(rt; values.decs().is_none());
}

#[test]
fn entities_are_found_by_key_by_reference_and_by_relation(rt: HostRuntime) {
    let Ok(model) = read_model(rt.alloc(), SALES_MODEL.as_bytes()) else {
        panic!(rt; "no model");
    };
    let Ok(store) = read_data(rt.alloc(), model, SALES.as_bytes()) else {
        panic!(rt; "no world");
    };
    expect_places(&rt, &store);
    expect_related(&rt, &store);
    expect_lists(&rt, &store);
}

/// The name of what a file is, and the place of the entity that is told.
fn outcome(alloc: Global, file: &[u8]) -> (&'static str, u32) {
    let Ok(model) = read_model(alloc, MODEL.as_bytes()) else {
        return ("NoModel", 0);
    };
    match read_data(alloc, model, file).err() {
        None => ("World", 0),
        Some(DataRefused::TooLong) => ("TooLong", 0),
        Some(DataRefused::Json) => ("Json", 0),
        Some(DataRefused::Set(_)) => ("Set", 0),
        Some(DataRefused::Shape(_, k)) => ("Shape", k),
        Some(DataRefused::TwiceKey(_, k)) => ("TwiceKey", k),
        Some(DataRefused::Dangling(_, k)) => ("Dangling", k),
        Some(DataRefused::Memory) => ("Memory", 0),
    }
}

/// Files, what they are, and the place of the entity that is told.
const FILES: &[(&str, &str, u32)] = &[
    ("{}", "World", 0),
    (
        "{\"Orgs\":[{\"ID\":\"A\",\"ParentID\":\"B\"},{\"ID\":\"B\",\"ParentID\":null,\"x@y\":1}]}",
        "World",
        0,
    ),
    ("{\"Orgs\":[{\"ID\":\"A\"}", "Json", 0),
    ("[]", "Json", 0),
    ("{\"Shops\":[]}", "Set", 0),
    ("{\"Orgs\":[],\"x@y\":[]}", "Set", 0),
    ("{\"Orgs\":[{\"ID\":\"A\",\"@\":[1.5]}]}", "World", 0),
    ("{\"Orgs\":[{\"ID\":\"A\",\"id\":\"a\"}]}", "Shape", 0),
    ("{\"Orgs\":[{\"ID\":\"A\",\"Parent\":null}]}", "Shape", 0),
    ("{\"Orgs\":{}}", "Set", 0),
    ("{\"Orgs\":[{\"ID\":\"A\"},{\"ID\":null}]}", "Shape", 1),
    (
        "{\"Orgs\":[{\"ID\":\"A\"},{\"ParentID\":\"A\"}]}",
        "Shape",
        1,
    ),
    ("{\"Orgs\":[{\"ID\":\"A\",\"Other\":1}]}", "Shape", 0),
    (
        "{\"Orgs\":[{\"ID\":\"A\"},{\"ID\":\"B\"},{\"ID\":\"A\",\"ParentID\":\"Z\"}]}",
        "TwiceKey",
        2,
    ),
    (
        "{\"Orgs\":[{\"ID\":\"A\"},{\"ID\":\"B\",\"ParentID\":\"Z\"}]}",
        "Dangling",
        1,
    ),
];

/// Files with whole numbers and decimals.
const NUMBERS: &[(&str, &str, u32)] = &[
    (
        "{\"Orgs\":[{\"ID\":\"A\",\"Level\":-9223372036854775808}]}",
        "World",
        0,
    ),
    ("{\"Orgs\":[{\"ID\":\"A\",\"Level\":\"+7\"}]}", "World", 0),
    (
        "{\"Orgs\":[{\"ID\":\"A\",\"Level\":9223372036854775808}]}",
        "Shape",
        0,
    ),
    ("{\"Orgs\":[{\"ID\":\"A\",\"Level\":1.0}]}", "Shape", 0),
    ("{\"Orgs\":[{\"ID\":\"A\",\"Level\":1e2}]}", "Shape", 0),
    ("{\"Orgs\":[{\"ID\":\"A\",\"Level\":-0}]}", "Shape", 0),
    ("{\"Orgs\":[{\"ID\":\"A\",\"Level\":1e300}]}", "Shape", 0),
    ("{\"Orgs\":[{\"ID\":\"A\",\"Level\":1e400}]}", "Json", 0),
    ("{\"Orgs\":[{\"ID\":\"A\",\"Level\":true}]}", "Shape", 0),
    ("{\"Orgs\":[{\"ID\":\"A\",\"Size\":99}]}", "World", 0),
    ("{\"Orgs\":[{\"ID\":\"A\",\"Size\":100}]}", "Shape", 0),
    ("{\"Orgs\":[{\"ID\":\"A\",\"Size\":1.5}]}", "Shape", 0),
    ("{\"Orgs\":[{\"ID\":\"A\",\"Size\":\"1e0\"}]}", "Shape", 0),
    ("{\"Orgs\":[{\"ID\":\"A\",\"Size\":\"1.230\"}]}", "World", 0),
    ("{\"Orgs\":[{\"ID\":\"A\",\"Size\":\"1.234\"}]}", "Shape", 0),
];

#[test]
fn tells_the_first_fault(rt: HostRuntime) {
    for rows in [FILES, NUMBERS] {
        for (file, name, k) in rows {
            assert_eq!(rt;
                outcome(rt.alloc(), file.as_bytes()),
                (*name, *k),
                "the file {file:?}"
            );
        }
    }
}

#[test]
fn refuses_a_file_that_is_cut(rt: HostRuntime) {
    let file =
        "{\"Orgs\":[{\"ID\":\"A\",\"ParentID\":null,\"Size\":\"1.5\"},{\"ID\":\"\\u00e9\"}]}".as_bytes();
    for k in 0..file.len() {
        assert_eq!(rt;
            outcome(rt.alloc(), &file[..k]).0,
            "Json",
            "the first {k} bytes"
        );
    }
    assert_eq!(rt; outcome(rt.alloc(), file).0, "World", "the whole file");
}
