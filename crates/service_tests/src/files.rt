//! Refused files and custom aggregates, each with its line.
use crate::worlds::{DATA, DEFINITION, MODEL, ORGS, PLAIN, expect_ended, expect_run};
use apply_service::Status;
use run_support::{Case, outcome_of, texts};
use std::alloc::Global;
use std::process::Abort;
use std::test::Fail;
use std::thread::Threads;
use test_support::samples::{SALES_DATA, SAMPLE};

/// A model file and a data file, which of them is refused, and its line.
const REFUSED: &[(&str, &str, Status, &[u8])] = &[
    ("{", DATA, Status::ModelRefused, b"model Json\n"),
    ("{}", DATA, Status::ModelRefused, b"model Model\n"),
    (
        "{\"$Version\":\"4.01\",\"$EntityContainer\":\"W.C\",\"W\":{\"Sale\":{\"$Kind\":\"EntityType\",\"$Key\":[\"ID\"],\"ID\":{\"$Type\":\"Edm.Int64\"},\"Amount\":{\"$Type\":\"Edm.Decimal\",\"$Precision\":16,\"$Nullable\":true}},\"C\":{\"$Kind\":\"EntityContainer\",\"Sales\":{\"$Collection\":true,\"$Type\":\"W.Sale\"}}}}",
        DATA,
        Status::ModelRefused,
        b"model Model\n",
    ),
    (
        MODEL,
        "{\"Sales\":[{\"ID\":1,\"Amount\":\"10.00\"},{\"ID\":\"2\",\"Amount\":\"5.50\"},{\"ID\":\"3\",\"Amount\":",
        Status::DataRefused,
        b"data Json\n",
    ),
    (
        MODEL,
        "{\"Shops\":[]}",
        Status::DataRefused,
        b"data Set \"Shops\"\n",
    ),
    (
        MODEL,
        "{\"Sales\":[{\"ID\":1},{\"ID\":\"x\"}]}",
        Status::DataRefused,
        b"data Shape \"Sales\" 1\n",
    ),
    (
        MODEL,
        "{\"Sales\":[{\"ID\":1},{\"ID\":\"1\"}]}",
        Status::DataRefused,
        b"data TwiceKey \"Sales\" 1\n",
    ),
    (
        ORGS,
        "{\"Orgs\":[{\"ID\":\"A\"},{\"ID\":\"A\"}]}",
        Status::DataRefused,
        b"data TwiceKey \"Orgs\" 1\n",
    ),
    (
        ORGS,
        "{\"Orgs\":[{\"ID\":\"A\",\"ParentID\":\"Z\"}]}",
        Status::DataRefused,
        b"data Dangling \"Orgs\" 0\n",
    ),
    (
        ORGS,
        "{\"Orgs\":[{\"ID\":7}]}",
        Status::DataRefused,
        b"data Shape \"Orgs\" 0\n",
    ),
    // Beside the other file of the sample.
    ("{", SALES_DATA, Status::ModelRefused, b"model Json\n"),
    ("{}", SALES_DATA, Status::ModelRefused, b"model Model\n"),
    (
        SAMPLE,
        "{\"Orgs\":[{\"ID\":\"A\"},{\"ID\":\"A\"}]}",
        Status::DataRefused,
        b"data TwiceKey \"Orgs\" 1\n",
    ),
    (
        SAMPLE,
        "{\"Orgs\":[{\"ID\":\"A\",\"ParentID\":\"Z\"}]}",
        Status::DataRefused,
        b"data Dangling \"Orgs\" 0\n",
    ),
    (
        SAMPLE,
        "{\"Orgs\":[{\"ID\":7}]}",
        Status::DataRefused,
        b"data Shape \"Orgs\" 0\n",
    ),
    (
        SAMPLE,
        "{\"Shops\":[]}",
        Status::DataRefused,
        b"data Set \"Shops\"\n",
    ),
];

/// A run over the sample.
const SALES: Case<'static> = Case {
    model: SAMPLE,
    data: SALES_DATA,
    ..PLAIN
};

#[test]
fn a_refused_file_has_its_line(rt: HostRuntime) -> Result<(), Fail> {
    for (model, data, status, output) in REFUSED {
        let case = Case {
            model,
            data,
            ..PLAIN
        };
        expect_run(&rt, rt.alloc(), &case, *status, output)?;
    }
    let half = SALES_DATA.get(..SALES_DATA.len() / 2).unwrap_or("");
    assert!(rt; !half.is_empty());
    let case = Case {
        data: half,
        ..SALES
    };
    expect_run(&rt, rt.alloc(), &case, Status::DataRefused, b"data Json\n")
}

/// Texts of the sample's model, what is written in their place, and the line of the model file that is then refused.
const EDITS: &[(&str, &str, &[u8])] = &[
    (",\"$Scale\":2", "", b"model Model\n"),
    (
        "\"Of\":\"Amount\"",
        "\"Of\":\"Nope\"",
        b"model Custom \"Sale\" \"Best\"\n",
    ),
];

#[test]
fn an_edit_of_the_samples_model_has_its_line(rt: HostRuntime) -> Result<(), Fail> {
    for (from, to, output) in EDITS {
        let model = SAMPLE.replace(rt.alloc(), from, to)?;
        let case = Case {
            model: model.as_str(),
            ..SALES
        };
        expect_run(&rt, rt.alloc(), &case, Status::ModelRefused, output)?;
    }
    Ok(())
}

/// Definitions of a custom aggregate, and the line that tells of the first one without a typing.
const DEFINITIONS: &[(&str, &[u8])] = &[
    (
        "{\"Of\":\"Nope\",\"With\":\"sum\",\"Per\":[\"CustomerID\"],\"Then\":\"max\"}",
        b"model Custom \"Sale\" \"Best\"\n",
    ),
    (
        "{\"Of\":\"Amount add\",\"With\":\"sum\",\"Per\":[\"CustomerID\"],\"Then\":\"max\"}",
        b"model Custom \"Sale\" \"Best\"\n",
    ),
    (
        "{\"Of\":\"Amount\",\"With\":\"sum\",\"Per\":[\"Customer//ID\"],\"Then\":\"max\"}",
        b"model Custom \"Sale\" \"Best\"\n",
    ),
    (
        "{\"Of\":\"Amount\",\"With\":\"sum\",\"Per\":[\"Customer\"],\"Then\":\"max\"}",
        b"model Custom \"Sale\" \"Best\"\n",
    ),
    (
        "{\"Of\":\"true\",\"With\":\"sum\"}",
        b"model Custom \"Sale\" \"Best\"\n",
    ),
    (
        "{\"Of\":\"Nope\",\"With\":\"sum\"},\"@Org.OData.Aggregation.V1.CustomAggregate#Able\":\"Edm.Decimal\",\"@Local.Apply.V1.Definition#Able\":{\"Of\":\"1 add\",\"With\":\"sum\"}",
        b"model Custom \"Sale\" \"Able\"\n",
    ),
    (
        "{\"Of\":\"1 add\",\"With\":\"sum\"},\"@Org.OData.Aggregation.V1.CustomAggregate#Able\":\"Edm.Decimal\",\"@Local.Apply.V1.Definition#Able\":{\"Of\":\"Nope\",\"With\":\"sum\"}",
        b"model Custom \"Sale\" \"Able\"\n",
    ),
    (
        "{\"Of\":\"1 add\",\"With\":\"sum\"},\"@Org.OData.Aggregation.V1.CustomAggregate#Able\":\"Edm.Decimal\",\"@Local.Apply.V1.Definition#Able\":{\"Of\":\"1\",\"With\":\"sum\"}",
        b"model Custom \"Sale\" \"Best\"\n",
    ),
    (
        "{\"Of\":\"Amount\",\"With\":\"sum\",\"Then\":\"max\"}",
        b"model Model\n",
    ),
];

/// Compares the line that tells of the sample's model with this definition, where the data file is not there.
fn expect_definition<R: Threads + Sync + Abort>(
    rt: &R,
    alloc: Global,
    definition: &str,
    output: &[u8],
) -> Result<(), Fail> {
    let model = SAMPLE.replace(alloc, DEFINITION, definition)?;
    let words = texts(alloc, &["--model", "m", "--data", "absent"])?;
    let case = Case {
        model: model.as_str(),
        ..PLAIN
    };
    let ran = outcome_of(rt, alloc, &case, words.as_slice(), Vec::new(alloc))?;
    assert_eq!(rt; ran.folder_faults, 0, "{definition}");
    expect_ended(rt, &ran, Status::ModelRefused, output, definition, 0);
    Ok(())
}

#[test]
fn the_first_custom_aggregate_without_a_typing_is_told_before_the_data_is_read(
    rt: HostRuntime,
) -> Result<(), Fail> {
    for (definition, output) in DEFINITIONS {
        expect_definition(&rt, rt.alloc(), definition, output)?;
    }
    Ok(())
}
