//! Model files, data files, lines of requests and responses that tests share.
use apply_service::Status;
use run_support::{Case, RunResult, outcome};
use std::alloc::Global;
use std::process::Abort;
use std::test::Fail;
use std::thread::Threads;

/// One entity set with a key and an amount.
pub(crate) const MODEL: &str =
    "{\"$Version\":\"4.01\",\"$EntityContainer\":\"W.C\",\"W\":{\"Sale\":{\"$Kind\":\"EntityType\",\"$Key\":[\"ID\"],\"ID\":{\"$Type\":\"Edm.Int64\"},\"Amount\":{\"$Type\":\"Edm.Decimal\",\"$Precision\":16,\"$Scale\":2,\"$Nullable\":true}},\"C\":{\"$Kind\":\"EntityContainer\",\"Sales\":{\"$Collection\":true,\"$Type\":\"W.Sale\"}}}}";

/// Organisations, each below another or none.
pub(crate) const ORGS: &str =
    "{\"$Version\":\"4.01\",\"$EntityContainer\":\"W.C\",\"W\":{\"Org\":{\"$Kind\":\"EntityType\",\"$Key\":[\"ID\"],\"ID\":{},\"ParentID\":{\"$Nullable\":true},\"Superordinate\":{\"$Kind\":\"NavigationProperty\",\"$Type\":\"W.Org\",\"$ReferentialConstraint\":{\"ParentID\":\"ID\"}}},\"C\":{\"$Kind\":\"EntityContainer\",\"Orgs\":{\"$Collection\":true,\"$Type\":\"W.Org\"}}}}";

pub(crate) const DATA: &str =
    "{\"Sales\":[{\"ID\":1,\"Amount\":\"10.00\"},{\"ID\":\"2\",\"Amount\":\"5.50\"},{\"ID\":\"3\",\"Amount\":\"7.25\"},{\"ID\":\"4\",\"Amount\":null},{\"ID\":\"5\",\"Amount\":1},{\"ID\":\"6\",\"Amount\":\"2.25\"}]}";

/// Two lines of the first form, the first with CR and LF, an empty line between them, and no LF at the end.
pub(crate) const LINES: &[u8] =
    b"Sales?$apply=aggregate(Amount with sum as Total)\r\n\r\nSales?$apply=aggregate(ID with sum as T)";

/// The responses to them.
pub(crate) const RESPONSES: &[u8] =
    b"200 88\n{\"@context\":\"$metadata#Sales(Total)\",\"value\":[{\"Total@type\":\"Decimal\",\"Total\":\"26.00\"}]}\n200 71\n{\"@context\":\"$metadata#Sales(T)\",\"value\":[{\"T@type\":\"Int64\",\"T\":\"21\"}]}\n";

/// The first of the responses.
pub(crate) const FIRST: &[u8] =
    b"200 88\n{\"@context\":\"$metadata#Sales(Total)\",\"value\":[{\"Total@type\":\"Decimal\",\"Total\":\"26.00\"}]}\n";

/// The definition of the sample's custom aggregate.
pub(crate) const DEFINITION: &str =
    "{\"Of\":\"Amount\",\"With\":\"sum\",\"Per\":[\"CustomerID\"],\"Then\":\"max\"}";

/// A run over one set of sales, whose calls all succeed.
pub(crate) const PLAIN: Case<'static> = Case {
    words: &[],
    model: MODEL,
    data: DATA,
    input: LINES,
    most: 4096,
    folder_fails: 0,
    input_fails: 0,
    output_fails: 0,
};

/// How many responses are no refusals.
pub(crate) fn answered(output: &[u8]) -> usize {
    output
        .split(|byte| *byte == b'\n')
        .filter(|line| line.starts_with(b"200 "))
        .count()
}

/// Compares how a run ended and what it wrote. `of` and the number say which run it is.
pub(crate) fn expect_ended(
    rt: &impl Abort,
    ran: &RunResult,
    status: Status,
    output: &[u8],
    of: &str,
    number: usize,
) {
    assert_eq!(rt; ran.status, status, "{of} {number}");
    assert_eq!(rt; ran.output.as_slice(), output, "{of} {number}");
}

/// Runs a case, and compares how it ends and what it writes. A case that fails is told by its words, the bytes of its files, how many
/// a call gives or takes, the calls that fail, and its input.
pub(crate) fn expect_run<R: Threads + Sync + Abort>(
    rt: &R,
    alloc: Global,
    case: &Case<'_>,
    status: Status,
    output: &[u8],
) -> Result<(), Fail> {
    let ran = outcome(rt, alloc, case)?;
    let line = str::from_utf8(case.input).unwrap_or("an input");
    let (words, most) = (case.words, case.most);
    let files = (case.model.len(), case.data.len());
    let fails = (case.folder_fails, case.input_fails, case.output_fails);
    let found = (ran.status, ran.output.as_slice());
    assert_eq!(rt;
        found,
        (status, output),
        "{words:?} {files:?} {most} {fails:?} {line}"
    );
    Ok(())
}
