//! Lines of requests and their responses.
use crate::worlds::{FIRST, PLAIN, RESPONSES, expect_ended, expect_run};
use apply_service::Status;
use run_support::{Case, outcome};
use std::alloc::Global;
use std::process::Abort;
use std::test::Fail;
use std::thread::Threads;
use test_support::samples::{CYCLE_DATA, SALES_DATA, SAMPLE, STOCK};

/// A run over the sample.
const SALES: Case<'static> = Case {
    model: SAMPLE,
    data: SALES_DATA,
    ..PLAIN
};

/// Lines over the sample, each answered by the first reason that holds.
const FIRST_REASONS: &[(&[u8], &[u8])] = &[
    (
        b"Shops?$apply=aggregate(Amount with sum as T)\n",
        b"404 77\n{\"error\":{\"code\":\"NotFound\",\"message\":\"no such entity set\",\"target\":\"Shops\"}}\n",
    ),
    (
        b"Sales?$apply=aggregate(Nope with sum as T)\n",
        b"400 81\n{\"error\":{\"code\":\"Type\",\"message\":\"the transformation has no type\",\"target\":\"1\"}}\n",
    ),
    (
        b"Sales?$apply=traverse($root/Orgs,OrgTree,OrgID,preorder)\n",
        b"200 337\n{\"@context\":\"$metadata#Sales\",\"value\":[{\"Amount\":\"7.25\",\"CustomerID\":\"C2\",\"ID\":\"3\",\"OrgID\":\"EMEA\"},{\"Amount\":\"2.25\",\"CustomerID\":\"C1\",\"ID\":\"6\",\"OrgID\":\"US\"},{\"Amount\":\"10.00\",\"CustomerID\":\"C1\",\"ID\":\"1\",\"OrgID\":\"West\"},{\"Amount\":null,\"CustomerID\":\"C3\",\"ID\":\"4\",\"OrgID\":\"West\"},{\"Amount\":\"5.50\",\"CustomerID\":\"C1\",\"ID\":\"2\",\"OrgID\":\"East\"}]}\n",
    ),
    (
        b"/Sales?%24apply=aggregate( Amount with sum as Total )\n",
        FIRST,
    ),
    (
        b"Sales?$apply=filter(not ID eq 1)\n",
        b"400 81\n{\"error\":{\"code\":\"Type\",\"message\":\"the transformation has no type\",\"target\":\"1\"}}\n",
    ),
    (
        b"explain Sales?$apply=aggregate(Amount with sum as T)\n",
        b"200 42\n{\"plan\":\"aggregate(Amount with sum as T)\"}\n",
    ),
    (
        b"explain Sales?$apply=filter(null)\n",
        b"400 81\n{\"error\":{\"code\":\"Type\",\"message\":\"the transformation has no type\",\"target\":\"1\"}}\n",
    ),
    (
        b"Sales?$apply=filter(null)\n",
        b"400 81\n{\"error\":{\"code\":\"Type\",\"message\":\"the transformation has no type\",\"target\":\"1\"}}\n",
    ),
    (
        b"Sales?$apply=compute(Amount as Amount)\n",
        b"400 81\n{\"error\":{\"code\":\"Type\",\"message\":\"the transformation has no type\",\"target\":\"1\"}}\n",
    ),
    (
        b"Sales?$apply=identity/filter(Nope eq 1)\n",
        b"400 81\n{\"error\":{\"code\":\"Type\",\"message\":\"the transformation has no type\",\"target\":\"2\"}}\n",
    ),
    (
        b"Sales?$apply=aggregate(Amount with sum as T)/aggregate(Amount with sum as T)\n",
        b"400 81\n{\"error\":{\"code\":\"Type\",\"message\":\"the transformation has no type\",\"target\":\"2\"}}\n",
    ),
    (
        b"Sales?$apply=concat(identity,descendants($root/Orgs,OrgTree,OrgID,filter(ID eq 1)))\n",
        b"200 395\n{\"@context\":\"$metadata#Sales\",\"value\":[{\"Amount\":\"10.00\",\"CustomerID\":\"C1\",\"ID\":\"1\",\"OrgID\":\"West\"},{\"Amount\":\"5.50\",\"CustomerID\":\"C1\",\"ID\":\"2\",\"OrgID\":\"East\"},{\"Amount\":\"7.25\",\"CustomerID\":\"C2\",\"ID\":\"3\",\"OrgID\":\"EMEA\"},{\"Amount\":null,\"CustomerID\":\"C3\",\"ID\":\"4\",\"OrgID\":\"West\"},{\"Amount\":\"1.00\",\"CustomerID\":\"C2\",\"ID\":\"5\",\"OrgID\":null},{\"Amount\":\"2.25\",\"CustomerID\":\"C1\",\"ID\":\"6\",\"OrgID\":\"US\"}]}\n",
    ),
    (
        b"Customers?$apply=join(Sales as S,traverse($root/Orgs,OrgTree,OrgID,preorder))\n",
        b"200 666\n{\"@context\":\"$metadata#Customers(*,S(*))\",\"value\":[{\"Country\":\"US\",\"ID\":\"C1\",\"Name\":\"Joe\",\"S\":{\"Amount\":\"2.25\",\"CustomerID\":\"C1\",\"ID\":\"6\",\"OrgID\":\"US\"},\"Since\":\"2019-05-01\"},{\"Country\":\"US\",\"ID\":\"C1\",\"Name\":\"Joe\",\"S\":{\"Amount\":\"10.00\",\"CustomerID\":\"C1\",\"ID\":\"1\",\"OrgID\":\"West\"},\"Since\":\"2019-05-01\"},{\"Country\":\"US\",\"ID\":\"C1\",\"Name\":\"Joe\",\"S\":{\"Amount\":\"5.50\",\"CustomerID\":\"C1\",\"ID\":\"2\",\"OrgID\":\"East\"},\"Since\":\"2019-05-01\"},{\"Country\":\"NL\",\"ID\":\"C2\",\"Name\":\"Sue\",\"S\":{\"Amount\":\"7.25\",\"CustomerID\":\"C2\",\"ID\":\"3\",\"OrgID\":\"EMEA\"},\"Since\":\"2020-02-29\"},{\"Country\":\"FR\",\"ID\":\"C3\",\"Name\":\"Luc\",\"S\":{\"Amount\":null,\"CustomerID\":\"C3\",\"ID\":\"4\",\"OrgID\":\"West\"},\"Since\":null}]}\n",
    ),
    (
        b"Customers?$apply=aggregate(Best)\n",
        b"400 81\n{\"error\":{\"code\":\"Type\",\"message\":\"the transformation has no type\",\"target\":\"1\"}}\n",
    ),
    (
        b"Shops?$apply=filter(null)\n",
        b"404 77\n{\"error\":{\"code\":\"NotFound\",\"message\":\"no such entity set\",\"target\":\"Shops\"}}\n",
    ),
    (
        b"Shops?$apply=identity\n",
        b"404 77\n{\"error\":{\"code\":\"NotFound\",\"message\":\"no such entity set\",\"target\":\"Shops\"}}\n",
    ),
    (
        b"Sales\n",
        b"400 76\n{\"error\":{\"code\":\"Syntax\",\"message\":\"the text is no pipeline\",\"target\":\"0\"}}\n",
    ),
    (
        b"Sales?$apply=aggregate(Amount with average as X)\n",
        b"400 76\n{\"error\":{\"code\":\"Syntax\",\"message\":\"the text is no pipeline\",\"target\":\"1\"}}\n",
    ),
    (
        b"Sales?$apply=filter(ID eq 1)/aggregate(\n",
        b"400 76\n{\"error\":{\"code\":\"Syntax\",\"message\":\"the text is no pipeline\",\"target\":\"2\"}}\n",
    ),
    (
        b"Sales?$apply=identity/\n",
        b"400 76\n{\"error\":{\"code\":\"Syntax\",\"message\":\"the text is no pipeline\",\"target\":\"2\"}}\n",
    ),
    (
        b"Sales?$apply=aggregate(Amount with sum as sum)",
        b"200 82\n{\"@context\":\"$metadata#Sales(sum)\",\"value\":[{\"sum@type\":\"Decimal\",\"sum\":\"26.00\"}]}\n",
    ),
    (
        b"Sales?$apply=aggregate(Amount with sum as desc)\n",
        b"400 76\n{\"error\":{\"code\":\"Syntax\",\"message\":\"the text is no pipeline\",\"target\":\"1\"}}\n",
    ),
];

/// The response to a line that is too long.
const TOO_LONG: &[u8] =
    b"414 61\n{\"error\":{\"code\":\"TooLong\",\"message\":\"the line is too long\"}}\n";

/// A front, a character, how often it stands behind the front, a back, and the first response; a line of 65,536 bytes is answered.
const LONG_LINES: &[(&str, &str, usize, &str, &[u8])] = &[
    ("", "x", 65_537, "\n", TOO_LONG),
    (
        "Sales?$apply=aggregate(Amount",
        " ",
        65_489,
        "with sum as Total)\n",
        FIRST,
    ),
    (
        "Sales?$apply=aggregate(Amount",
        " ",
        65_489,
        "with sum as Total)\r\n",
        FIRST,
    ),
    (
        "Sales?$apply=aggregate(Amount",
        " ",
        65_490,
        "with sum as Total)\n",
        TOO_LONG,
    ),
    (
        "Sales?$apply=aggregate(Amount",
        " ",
        65_490,
        "with sum as Total)\r\n",
        TOO_LONG,
    ),
];

/// Data, a sum over them, and its response: nulls are skipped, and only the whole sum is tested against the range.
const SUMS: &[(&str, &[u8], &[u8])] = &[
    (
        "{}",
        b"Sales?$apply=aggregate(Amount with sum as Total)\n",
        b"200 85\n{\"@context\":\"$metadata#Sales(Total)\",\"value\":[{\"Total@type\":\"Decimal\",\"Total\":null}]}\n",
    ),
    (
        "{\"Sales\":[{\"ID\":9223372036854775807},{\"ID\":1}]}",
        b"Sales?$apply=aggregate(ID with sum as Total)\n",
        b"422 65\n{\"error\":{\"code\":\"Range\",\"message\":\"a number is past its range\"}}\n",
    ),
    (
        "{\"Sales\":[{\"ID\":9223372036854775807},{\"ID\":1},{\"ID\":-1}]}",
        b"Sales?$apply=aggregate(ID with sum as Total)\n",
        b"200 100\n{\"@context\":\"$metadata#Sales(Total)\",\"value\":[{\"Total@type\":\"Int64\",\"Total\":\"9223372036854775807\"}]}\n",
    ),
];

/// How many bytes a read gives.
const CUTS: &[usize] = &[1, 7, 4096];

#[test]
fn lines_are_answered_in_order_however_the_input_is_cut(rt: HostRuntime) -> Result<(), Fail> {
    for most in CUTS {
        let case = Case {
            most: *most,
            ..PLAIN
        };
        expect_run(&rt, rt.alloc(), &case, Status::Served, RESPONSES)?;
    }
    Ok(())
}

#[test]
fn sums_skip_nulls_and_keep_their_range(rt: HostRuntime) -> Result<(), Fail> {
    for (data, input, output) in SUMS {
        let case = Case {
            data,
            input,
            ..PLAIN
        };
        expect_run(&rt, rt.alloc(), &case, Status::Served, output)?;
    }
    Ok(())
}

#[test]
fn each_line_is_answered_by_the_first_reason_that_holds(rt: HostRuntime) -> Result<(), Fail> {
    for (input, output) in FIRST_REASONS {
        let case = Case { input, ..SALES };
        expect_run(&rt, rt.alloc(), &case, Status::Served, output)?;
    }
    Ok(())
}

/// A line with so many of a character, and one behind it.
fn long_line(
    alloc: Global,
    front: &str,
    filler: &str,
    count: usize,
    back: &str,
) -> Result<String, Fail> {
    let filling = filler.repeat(alloc, count)?;
    let behind = "Sales?$apply=aggregate(Amount with sum as Total)\n";
    Ok(format!(in alloc; "{front}{filling}{back}{behind}")?)
}

#[test]
fn a_line_of_65_536_bytes_is_answered_and_a_longer_one_told_too_long(
    rt: HostRuntime,
) -> Result<(), Fail> {
    for (front, filler, count, back, first) in LONG_LINES {
        let line = long_line(rt.alloc(), front, filler, *count, back)?;
        expect_long(&rt, rt.alloc(), line.as_bytes(), first)?;
    }
    Ok(())
}

/// Compares the two responses to a line and the one behind it.
fn expect_long<R: Threads + Sync + Abort>(
    rt: &R,
    alloc: Global,
    input: &[u8],
    first: &[u8],
) -> Result<(), Fail> {
    let mut expected = first.to_vec(alloc)?;
    expected.extend_from_slice(FIRST)?;
    let ran = outcome(rt, alloc, &Case { input, ..PLAIN })?;
    expect_ended(rt, &ran, Status::Served, &expected, "bytes", input.len());
    Ok(())
}

/// Requests over the sample, with the code and the body of their responses, from the rules and from a program that was written
/// apart from this one.
const ANSWERS: &[(&str, &str, &str)] = &[
    (
        "Sales?$apply=identity",
        "200",
        "{\"@context\":\"$metadata#Sales\",\"value\":[{\"Amount\":\"10.00\",\"CustomerID\":\"C1\",\"ID\":\"1\",\"OrgID\":\"West\"},{\"Amount\":\"5.50\",\"CustomerID\":\"C1\",\"ID\":\"2\",\"OrgID\":\"East\"},{\"Amount\":\"7.25\",\"CustomerID\":\"C2\",\"ID\":\"3\",\"OrgID\":\"EMEA\"},{\"Amount\":null,\"CustomerID\":\"C3\",\"ID\":\"4\",\"OrgID\":\"West\"},{\"Amount\":\"1.00\",\"CustomerID\":\"C2\",\"ID\":\"5\",\"OrgID\":null},{\"Amount\":\"2.25\",\"CustomerID\":\"C1\",\"ID\":\"6\",\"OrgID\":\"US\"}]}",
    ),
    (
        "Customers?$apply=skip(1)/top(2)",
        "200",
        "{\"@context\":\"$metadata#Customers\",\"value\":[{\"Country\":\"NL\",\"ID\":\"C2\",\"Name\":\"Sue\",\"Since\":\"2020-02-29\"},{\"Country\":\"FR\",\"ID\":\"C3\",\"Name\":\"Luc\",\"Since\":null}]}",
    ),
    (
        "Orgs?$apply=filter(ParentID eq 'US')",
        "200",
        "{\"@context\":\"$metadata#Orgs\",\"value\":[{\"ID\":\"West\",\"ParentID\":\"US\"},{\"ID\":\"East\",\"ParentID\":\"US\"}]}",
    ),
    (
        "Sales?$apply=filter(ID eq 99)/aggregate(Amount with sum as T,$count as N)",
        "200",
        "{\"@context\":\"$metadata#Sales(N,T)\",\"value\":[{\"N@type\":\"Int64\",\"N\":\"0\",\"T@type\":\"Decimal\",\"T\":null}]}",
    ),
    (
        "Sales?$apply=compute(Amount mul 100000000000000000 as X)",
        "422",
        "{\"error\":{\"code\":\"Range\",\"message\":\"a number is past its range\"}}",
    ),
    (
        "Sales?$apply=compute(Amount mul 100000000000000000 as X)/filter(ID eq 99)",
        "200",
        "{\"@context\":\"$metadata#Sales(*,X)\",\"value\":[]}",
    ),
    (
        "Sales?$apply=filter(Amount mul 100000000000000000 gt 0)",
        "422",
        "{\"error\":{\"code\":\"Range\",\"message\":\"a number is past its range\"}}",
    ),
    (
        "Sales?$apply=orderby(Amount mul 100000000000000000)",
        "422",
        "{\"error\":{\"code\":\"Range\",\"message\":\"a number is past its range\"}}",
    ),
    (
        "Sales?$apply=aggregate(CustomerID with countdistinct as D,Amount with min as L,Amount with max as M)",
        "200",
        "{\"@context\":\"$metadata#Sales(D,L,M)\",\"value\":[{\"D@type\":\"Int64\",\"D\":\"3\",\"L@type\":\"Decimal\",\"L\":\"1.00\",\"M@type\":\"Decimal\",\"M\":\"10.00\"}]}",
    ),
    (
        "/Sales?%24apply=filter(year(Customer/Since)%20eq%202020)/aggregate(%24count%20as%20N)",
        "200",
        "{\"@context\":\"$metadata#Sales(N)\",\"value\":[{\"N@type\":\"Int64\",\"N\":\"2\"}]}",
    ),
    (
        "Sales?$apply=orderby(Amount desc)/top(1)",
        "200",
        "{\"@context\":\"$metadata#Sales\",\"value\":[{\"Amount\":\"10.00\",\"CustomerID\":\"C1\",\"ID\":\"1\",\"OrgID\":\"West\"}]}",
    ),
    (
        "Sales?$apply=orderby(Amount)/top(1)/aggregate(ID with max as M)",
        "200",
        "{\"@context\":\"$metadata#Sales(M)\",\"value\":[{\"M@type\":\"Int64\",\"M\":\"4\"}]}",
    ),
    (
        "Sales?$apply=skip(6)/top(9223372036854775807)",
        "200",
        "{\"@context\":\"$metadata#Sales\",\"value\":[]}",
    ),
    (
        "Sales?$apply=top(1)/compute(ID eq 1 as B,Amount as D,ID add 1 as I,Customer/Name as T,Customer/Since as S)",
        "200",
        "{\"@context\":\"$metadata#Sales(*,B,D,I,S,T)\",\"value\":[{\"Amount\":\"10.00\",\"B\":true,\"CustomerID\":\"C1\",\"D@type\":\"Decimal\",\"D\":\"10.00\",\"I@type\":\"Int64\",\"I\":\"2\",\"ID\":\"1\",\"OrgID\":\"West\",\"S@type\":\"Date\",\"S\":\"2019-05-01\",\"T\":\"Joe\"}]}",
    ),
    (
        "Sales?$apply=filter(ID eq 4)/compute(Amount as D,Customer/Since as S)",
        "200",
        "{\"@context\":\"$metadata#Sales(*,D,S)\",\"value\":[{\"Amount\":null,\"CustomerID\":\"C3\",\"D@type\":\"Decimal\",\"D\":null,\"ID\":\"4\",\"OrgID\":\"West\",\"S@type\":\"Date\",\"S\":null}]}",
    ),
    (
        "Sales?$apply=top(1)/compute('a\"b\\c' as T,'' as E)",
        "200",
        "{\"@context\":\"$metadata#Sales(*,E,T)\",\"value\":[{\"Amount\":\"10.00\",\"CustomerID\":\"C1\",\"E\":\"\",\"ID\":\"1\",\"OrgID\":\"West\",\"T\":\"a\\\"b\\\\c\"}]}",
    ),
    (
        "Sales?$apply=aggregate(Customer/Since with min as S,OrgID with max as O)",
        "200",
        "{\"@context\":\"$metadata#Sales(O,S)\",\"value\":[{\"O\":\"West\",\"S@type\":\"Date\",\"S\":\"2019-05-01\"}]}",
    ),
    (
        "Sales?$apply=aggregate(ID mul 3000000000000000000 with sum as T)",
        "422",
        "{\"error\":{\"code\":\"Range\",\"message\":\"a number is past its range\"}}",
    ),
    (
        "Sales?$apply=aggregate(Amount with sum as Total)/compute(Total mul 2 as Twice)/filter(Twice gt 52)",
        "200",
        "{\"@context\":\"$metadata#Sales(Total,Twice)\",\"value\":[]}",
    ),
    (
        "Sales?$apply=groupby((Customer/Country),aggregate(Amount with sum as T))",
        "200",
        "{\"@context\":\"$metadata#Sales(Customer(Country),T)\",\"value\":[{\"Customer\":{\"Country\":\"US\"},\"T@type\":\"Decimal\",\"T\":\"17.75\"},{\"Customer\":{\"Country\":\"NL\"},\"T@type\":\"Decimal\",\"T\":\"8.25\"},{\"Customer\":{\"Country\":\"FR\"},\"T@type\":\"Decimal\",\"T\":null}]}",
    ),
    (
        "Sales?$apply=groupby((rollup(Customer/Country,Customer/Name)),aggregate($count as N))",
        "200",
        "{\"@context\":\"$metadata#Sales(Customer(Country,Name),N)\",\"value\":[{\"Customer\":{\"Country\":\"US\",\"Name\":\"Joe\"},\"N@type\":\"Int64\",\"N\":\"3\"},{\"Customer\":{\"Country\":\"NL\",\"Name\":\"Sue\"},\"N@type\":\"Int64\",\"N\":\"2\"},{\"Customer\":{\"Country\":\"FR\",\"Name\":\"Luc\"},\"N@type\":\"Int64\",\"N\":\"1\"},{\"Customer\":{\"Country\":\"US\"},\"N@type\":\"Int64\",\"N\":\"3\"},{\"Customer\":{\"Country\":\"NL\"},\"N@type\":\"Int64\",\"N\":\"2\"},{\"Customer\":{\"Country\":\"FR\"},\"N@type\":\"Int64\",\"N\":\"1\"}]}",
    ),
    (
        "Sales?$apply=groupby((rollup($all,Customer/Country)),aggregate($count as N))",
        "200",
        "{\"@context\":\"$metadata#Sales(Customer(Country),N)\",\"value\":[{\"Customer\":{\"Country\":\"US\"},\"N@type\":\"Int64\",\"N\":\"3\"},{\"Customer\":{\"Country\":\"NL\"},\"N@type\":\"Int64\",\"N\":\"2\"},{\"Customer\":{\"Country\":\"FR\"},\"N@type\":\"Int64\",\"N\":\"1\"},{\"N@type\":\"Int64\",\"N\":\"6\"}]}",
    ),
    (
        "Sales?$apply=aggregate(Best)",
        "200",
        "{\"@context\":\"$metadata#Sales(Best)\",\"value\":[{\"Best@type\":\"Decimal\",\"Best\":\"17.75\"}]}",
    ),
    (
        "Sales?$apply=aggregate($count as N,Best)",
        "200",
        "{\"@context\":\"$metadata#Sales(Best,N)\",\"value\":[{\"Best@type\":\"Decimal\",\"Best\":\"17.75\",\"N@type\":\"Int64\",\"N\":\"6\"}]}",
    ),
    (
        "Sales?$apply=orderby(Amount desc,ID)/skip(1)/top(2)/groupby((ID))",
        "200",
        "{\"@context\":\"$metadata#Sales(ID)\",\"value\":[{\"ID\":\"3\"},{\"ID\":\"2\"}]}",
    ),
    (
        "Sales?$apply=filter(ID eq 99)/groupby((rollup($all,OrgID)),aggregate($count as N))",
        "200",
        "{\"@context\":\"$metadata#Sales(N,OrgID)\",\"value\":[]}",
    ),
    (
        "Sales?$apply=groupby((OrgID))/skip(3)",
        "200",
        "{\"@context\":\"$metadata#Sales(OrgID)\",\"value\":[{\"OrgID\":null},{\"OrgID\":\"US\"}]}",
    ),
    (
        "Sales?$apply=filter(ID eq 99)/aggregate(Best)",
        "200",
        "{\"@context\":\"$metadata#Sales(Best)\",\"value\":[{\"Best@type\":\"Decimal\",\"Best\":null}]}",
    ),
    (
        "Sales?$apply=groupby((CustomerID),top(1))",
        "200",
        "{\"@context\":\"$metadata#Sales(*,CustomerID)\",\"value\":[{\"Amount\":\"10.00\",\"CustomerID\":\"C1\",\"ID\":\"1\",\"OrgID\":\"West\"},{\"Amount\":\"7.25\",\"CustomerID\":\"C2\",\"ID\":\"3\",\"OrgID\":\"EMEA\"},{\"Amount\":null,\"CustomerID\":\"C3\",\"ID\":\"4\",\"OrgID\":\"West\"}]}",
    ),
    (
        "Sales?$apply=groupby((CustomerID),aggregate(ID mul 3000000000000000000 with sum as T))",
        "422",
        "{\"error\":{\"code\":\"Range\",\"message\":\"a number is past its range\"}}",
    ),
    (
        "Sales?$apply=compute(Amount mul 100000000000000000 as X)/groupby((X))",
        "422",
        "{\"error\":{\"code\":\"Range\",\"message\":\"a number is past its range\"}}",
    ),
    (
        "Sales?$apply=topcount(2,Amount)/groupby((ID))",
        "200",
        "{\"@context\":\"$metadata#Sales(ID)\",\"value\":[{\"ID\":\"1\"},{\"ID\":\"3\"}]}",
    ),
    (
        "Sales?$apply=toppercent(50,Amount)/groupby((ID))",
        "200",
        "{\"@context\":\"$metadata#Sales(ID)\",\"value\":[{\"ID\":\"1\"},{\"ID\":\"3\"}]}",
    ),
    (
        "Sales?$apply=bottomsum(3,Amount)/groupby((ID))",
        "200",
        "{\"@context\":\"$metadata#Sales(ID)\",\"value\":[{\"ID\":\"5\"},{\"ID\":\"6\"}]}",
    ),
    (
        "Sales?$apply=bottomcount(2,Amount)/groupby((ID))",
        "200",
        "{\"@context\":\"$metadata#Sales(ID)\",\"value\":[{\"ID\":\"5\"},{\"ID\":\"6\"}]}",
    ),
    (
        "Sales?$apply=topsum(15,Amount)/groupby((ID))",
        "200",
        "{\"@context\":\"$metadata#Sales(ID)\",\"value\":[{\"ID\":\"1\"},{\"ID\":\"3\"}]}",
    ),
    (
        "Sales?$apply=topsum(100,Amount)/groupby((ID))",
        "200",
        "{\"@context\":\"$metadata#Sales(ID)\",\"value\":[{\"ID\":\"1\"},{\"ID\":\"2\"},{\"ID\":\"3\"},{\"ID\":\"4\"},{\"ID\":\"5\"},{\"ID\":\"6\"}]}",
    ),
    (
        "Sales?$apply=bottompercent(10,Amount)/groupby((ID))",
        "200",
        "{\"@context\":\"$metadata#Sales(ID)\",\"value\":[{\"ID\":\"5\"},{\"ID\":\"6\"}]}",
    ),
    (
        "Sales?$apply=toppercent(0,Amount)/groupby((ID))",
        "200",
        "{\"@context\":\"$metadata#Sales(ID)\",\"value\":[]}",
    ),
    (
        "Sales?$apply=topcount(1,Amount mul 100000000000000000)",
        "422",
        "{\"error\":{\"code\":\"Range\",\"message\":\"a number is past its range\"}}",
    ),
    (
        "Customers?$apply=outerjoin(Sales as S,filter(Amount gt 5))",
        "200",
        "{\"@context\":\"$metadata#Customers(*,S(*))\",\"value\":[{\"Country\":\"US\",\"ID\":\"C1\",\"Name\":\"Joe\",\"S\":{\"Amount\":\"10.00\",\"CustomerID\":\"C1\",\"ID\":\"1\",\"OrgID\":\"West\"},\"Since\":\"2019-05-01\"},{\"Country\":\"US\",\"ID\":\"C1\",\"Name\":\"Joe\",\"S\":{\"Amount\":\"5.50\",\"CustomerID\":\"C1\",\"ID\":\"2\",\"OrgID\":\"East\"},\"Since\":\"2019-05-01\"},{\"Country\":\"NL\",\"ID\":\"C2\",\"Name\":\"Sue\",\"S\":{\"Amount\":\"7.25\",\"CustomerID\":\"C2\",\"ID\":\"3\",\"OrgID\":\"EMEA\"},\"Since\":\"2020-02-29\"},{\"Country\":\"FR\",\"ID\":\"C3\",\"Name\":\"Luc\",\"S\":null,\"Since\":null},{\"Country\":\"FR\",\"ID\":\"C4\",\"Name\":\"Ann\",\"S\":null,\"Since\":\"2020-12-31\"}]}",
    ),
    (
        "Customers?$apply=join(Sales as S)/groupby((Country),aggregate(S/Amount with sum as T))/orderby(T desc)/top(1)",
        "200",
        "{\"@context\":\"$metadata#Customers(Country,T)\",\"value\":[{\"Country\":\"US\",\"T@type\":\"Decimal\",\"T\":\"17.75\"}]}",
    ),
    (
        "Customers?$apply=join(Sales as S,aggregate(Amount with sum as T,$count as N))",
        "200",
        "{\"@context\":\"$metadata#Customers(*,S(N,T))\",\"value\":[{\"Country\":\"US\",\"ID\":\"C1\",\"Name\":\"Joe\",\"S\":{\"N@type\":\"Int64\",\"N\":\"3\",\"T@type\":\"Decimal\",\"T\":\"17.75\"},\"Since\":\"2019-05-01\"},{\"Country\":\"NL\",\"ID\":\"C2\",\"Name\":\"Sue\",\"S\":{\"N@type\":\"Int64\",\"N\":\"2\",\"T@type\":\"Decimal\",\"T\":\"8.25\"},\"Since\":\"2020-02-29\"},{\"Country\":\"FR\",\"ID\":\"C3\",\"Name\":\"Luc\",\"S\":{\"N@type\":\"Int64\",\"N\":\"1\",\"T@type\":\"Decimal\",\"T\":null},\"Since\":null},{\"Country\":\"FR\",\"ID\":\"C4\",\"Name\":\"Ann\",\"S\":{\"N@type\":\"Int64\",\"N\":\"0\",\"T@type\":\"Decimal\",\"T\":null},\"Since\":\"2020-12-31\"}]}",
    ),
    (
        "Sales?$apply=concat(filter(ID eq 1),filter(ID eq 1))/groupby((ID),aggregate($count as N))",
        "200",
        "{\"@context\":\"$metadata#Sales(ID,N)\",\"value\":[{\"ID\":\"1\",\"N@type\":\"Int64\",\"N\":\"2\"}]}",
    ),
    (
        "Sales?$apply=concat(top(1),aggregate(Amount with sum as T))",
        "200",
        "{\"@context\":\"$metadata#Sales(*,T)\",\"value\":[{\"Amount\":\"10.00\",\"CustomerID\":\"C1\",\"ID\":\"1\",\"OrgID\":\"West\"},{\"T@type\":\"Decimal\",\"T\":\"26.00\"}]}",
    ),
    (
        "Sales?$apply=groupby((CustomerID),topcount(1,Amount))",
        "200",
        "{\"@context\":\"$metadata#Sales(*,CustomerID)\",\"value\":[{\"Amount\":\"10.00\",\"CustomerID\":\"C1\",\"ID\":\"1\",\"OrgID\":\"West\"},{\"Amount\":\"7.25\",\"CustomerID\":\"C2\",\"ID\":\"3\",\"OrgID\":\"EMEA\"},{\"Amount\":null,\"CustomerID\":\"C3\",\"ID\":\"4\",\"OrgID\":\"West\"}]}",
    ),
    (
        "Sales?$apply=concat(identity,filter(Amount mul 100000000000000000 gt 0))",
        "422",
        "{\"error\":{\"code\":\"Range\",\"message\":\"a number is past its range\"}}",
    ),
    (
        "explain Sales?$apply=groupby((ID))",
        "200",
        "{\"plan\":\"groupby((ID))\"}",
    ),
    (
        "explain Sales?$apply=identity",
        "200",
        "{\"plan\":\"identity\"}",
    ),
];

/// Requests over groups whose inner pipeline begins with an aggregation, or does not, and their responses over the sample.
const GROUPED: &[(&str, &str, &str)] = &[
    (
        "Sales?$apply=groupby((OrgID),aggregate(ID with min as F,ID with max as L,$count as N))",
        "200",
        "{\"@context\":\"$metadata#Sales(F,L,N,OrgID)\",\"value\":[{\"F@type\":\"Int64\",\"F\":\"1\",\"L@type\":\"Int64\",\"L\":\"4\",\"N@type\":\"Int64\",\"N\":\"2\",\"OrgID\":\"West\"},{\"F@type\":\"Int64\",\"F\":\"2\",\"L@type\":\"Int64\",\"L\":\"2\",\"N@type\":\"Int64\",\"N\":\"1\",\"OrgID\":\"East\"},{\"F@type\":\"Int64\",\"F\":\"3\",\"L@type\":\"Int64\",\"L\":\"3\",\"N@type\":\"Int64\",\"N\":\"1\",\"OrgID\":\"EMEA\"},{\"F@type\":\"Int64\",\"F\":\"5\",\"L@type\":\"Int64\",\"L\":\"5\",\"N@type\":\"Int64\",\"N\":\"1\",\"OrgID\":null},{\"F@type\":\"Int64\",\"F\":\"6\",\"L@type\":\"Int64\",\"L\":\"6\",\"N@type\":\"Int64\",\"N\":\"1\",\"OrgID\":\"US\"}]}",
    ),
    (
        "Sales?$apply=groupby((rollup($all,Customer/Country,OrgID)),aggregate(ID with min as F,ID with max as L,$count as N))",
        "200",
        "{\"@context\":\"$metadata#Sales(Customer(Country),F,L,N,OrgID)\",\"value\":[{\"Customer\":{\"Country\":\"US\"},\"F@type\":\"Int64\",\"F\":\"1\",\"L@type\":\"Int64\",\"L\":\"1\",\"N@type\":\"Int64\",\"N\":\"1\",\"OrgID\":\"West\"},{\"Customer\":{\"Country\":\"US\"},\"F@type\":\"Int64\",\"F\":\"2\",\"L@type\":\"Int64\",\"L\":\"2\",\"N@type\":\"Int64\",\"N\":\"1\",\"OrgID\":\"East\"},{\"Customer\":{\"Country\":\"NL\"},\"F@type\":\"Int64\",\"F\":\"3\",\"L@type\":\"Int64\",\"L\":\"3\",\"N@type\":\"Int64\",\"N\":\"1\",\"OrgID\":\"EMEA\"},{\"Customer\":{\"Country\":\"FR\"},\"F@type\":\"Int64\",\"F\":\"4\",\"L@type\":\"Int64\",\"L\":\"4\",\"N@type\":\"Int64\",\"N\":\"1\",\"OrgID\":\"West\"},{\"Customer\":{\"Country\":\"NL\"},\"F@type\":\"Int64\",\"F\":\"5\",\"L@type\":\"Int64\",\"L\":\"5\",\"N@type\":\"Int64\",\"N\":\"1\",\"OrgID\":null},{\"Customer\":{\"Country\":\"US\"},\"F@type\":\"Int64\",\"F\":\"6\",\"L@type\":\"Int64\",\"L\":\"6\",\"N@type\":\"Int64\",\"N\":\"1\",\"OrgID\":\"US\"},{\"Customer\":{\"Country\":\"US\"},\"F@type\":\"Int64\",\"F\":\"1\",\"L@type\":\"Int64\",\"L\":\"6\",\"N@type\":\"Int64\",\"N\":\"3\"},{\"Customer\":{\"Country\":\"NL\"},\"F@type\":\"Int64\",\"F\":\"3\",\"L@type\":\"Int64\",\"L\":\"5\",\"N@type\":\"Int64\",\"N\":\"2\"},{\"Customer\":{\"Country\":\"FR\"},\"F@type\":\"Int64\",\"F\":\"4\",\"L@type\":\"Int64\",\"L\":\"4\",\"N@type\":\"Int64\",\"N\":\"1\"},{\"F@type\":\"Int64\",\"F\":\"1\",\"L@type\":\"Int64\",\"L\":\"6\",\"N@type\":\"Int64\",\"N\":\"6\"}]}",
    ),
    (
        "Sales?$apply=groupby((Customer/Country),aggregate(Best,$count as N))",
        "200",
        "{\"@context\":\"$metadata#Sales(Best,Customer(Country),N)\",\"value\":[{\"Best@type\":\"Decimal\",\"Best\":\"17.75\",\"Customer\":{\"Country\":\"US\"},\"N@type\":\"Int64\",\"N\":\"3\"},{\"Best@type\":\"Decimal\",\"Best\":\"8.25\",\"Customer\":{\"Country\":\"NL\"},\"N@type\":\"Int64\",\"N\":\"2\"},{\"Best@type\":\"Decimal\",\"Best\":null,\"Customer\":{\"Country\":\"FR\"},\"N@type\":\"Int64\",\"N\":\"1\"}]}",
    ),
    (
        "Sales?$apply=groupby((OrgID),aggregate(Amount with sum as T)/compute(T mul 2 as D)/filter(D gt 10))",
        "200",
        "{\"@context\":\"$metadata#Sales(D,OrgID,T)\",\"value\":[{\"D@type\":\"Decimal\",\"D\":\"20.00\",\"OrgID\":\"West\",\"T@type\":\"Decimal\",\"T\":\"10.00\"},{\"D@type\":\"Decimal\",\"D\":\"11.00\",\"OrgID\":\"East\",\"T@type\":\"Decimal\",\"T\":\"5.50\"},{\"D@type\":\"Decimal\",\"D\":\"14.50\",\"OrgID\":\"EMEA\",\"T@type\":\"Decimal\",\"T\":\"7.25\"}]}",
    ),
    (
        "Sales?$apply=groupby((CustomerID),filter(Amount gt 5)/aggregate($count as N,Amount with sum as T))",
        "200",
        "{\"@context\":\"$metadata#Sales(CustomerID,N,T)\",\"value\":[{\"CustomerID\":\"C1\",\"N@type\":\"Int64\",\"N\":\"2\",\"T@type\":\"Decimal\",\"T\":\"15.50\"},{\"CustomerID\":\"C2\",\"N@type\":\"Int64\",\"N\":\"1\",\"T@type\":\"Decimal\",\"T\":\"7.25\"},{\"CustomerID\":\"C3\",\"N@type\":\"Int64\",\"N\":\"0\",\"T@type\":\"Decimal\",\"T\":null}]}",
    ),
];

/// The same with transformations over the hierarchy of the organisations.
const BY_NODES: &[(&str, &str, &str)] = &[
    (
        "Sales?$apply=concat(identity,traverse($root/Orgs,OrgTree,OrgID,preorder))",
        "200",
        "{\"@context\":\"$metadata#Sales\",\"value\":[{\"Amount\":\"10.00\",\"CustomerID\":\"C1\",\"ID\":\"1\",\"OrgID\":\"West\"},{\"Amount\":\"5.50\",\"CustomerID\":\"C1\",\"ID\":\"2\",\"OrgID\":\"East\"},{\"Amount\":\"7.25\",\"CustomerID\":\"C2\",\"ID\":\"3\",\"OrgID\":\"EMEA\"},{\"Amount\":null,\"CustomerID\":\"C3\",\"ID\":\"4\",\"OrgID\":\"West\"},{\"Amount\":\"1.00\",\"CustomerID\":\"C2\",\"ID\":\"5\",\"OrgID\":null},{\"Amount\":\"2.25\",\"CustomerID\":\"C1\",\"ID\":\"6\",\"OrgID\":\"US\"},{\"Amount\":\"7.25\",\"CustomerID\":\"C2\",\"ID\":\"3\",\"OrgID\":\"EMEA\"},{\"Amount\":\"2.25\",\"CustomerID\":\"C1\",\"ID\":\"6\",\"OrgID\":\"US\"},{\"Amount\":\"10.00\",\"CustomerID\":\"C1\",\"ID\":\"1\",\"OrgID\":\"West\"},{\"Amount\":null,\"CustomerID\":\"C3\",\"ID\":\"4\",\"OrgID\":\"West\"},{\"Amount\":\"5.50\",\"CustomerID\":\"C1\",\"ID\":\"2\",\"OrgID\":\"East\"}]}",
    ),
    (
        "Customers?$apply=join(Sales as S,ancestors($root/Orgs,OrgTree,OrgID,identity))",
        "200",
        "{\"@context\":\"$metadata#Customers(*,S(*))\",\"value\":[{\"Country\":\"US\",\"ID\":\"C1\",\"Name\":\"Joe\",\"S\":{\"Amount\":\"2.25\",\"CustomerID\":\"C1\",\"ID\":\"6\",\"OrgID\":\"US\"},\"Since\":\"2019-05-01\"}]}",
    ),
    (
        "Orgs?$apply=traverse($root/Orgs,OrgTree,ID,postorder)",
        "200",
        "{\"@context\":\"$metadata#Orgs\",\"value\":[{\"ID\":\"EMEA\",\"ParentID\":\"Corp\"},{\"ID\":\"West\",\"ParentID\":\"US\"},{\"ID\":\"East\",\"ParentID\":\"US\"},{\"ID\":\"US\",\"ParentID\":\"Corp\"},{\"ID\":\"Corp\",\"ParentID\":null},{\"ID\":\"Lab\",\"ParentID\":null}]}",
    ),
    (
        "Sales?$apply=groupby((rolluprecursive($root/Orgs,OrgTree,OrgID)))",
        "200",
        "{\"@context\":\"$metadata#Sales(OrgID)\",\"value\":[{\"OrgID\":\"Corp\"},{\"OrgID\":\"EMEA\"},{\"OrgID\":\"US\"},{\"OrgID\":\"West\"},{\"OrgID\":\"East\"}]}",
    ),
    (
        "Sales?$apply=groupby((rolluprecursive($root/Orgs,OrgTree,OrgID)),aggregate(Amount with sum as T))",
        "200",
        "{\"@context\":\"$metadata#Sales(OrgID,T)\",\"value\":[{\"OrgID\":\"Corp\",\"T@type\":\"Decimal\",\"T\":\"25.00\"},{\"OrgID\":\"EMEA\",\"T@type\":\"Decimal\",\"T\":\"7.25\"},{\"OrgID\":\"US\",\"T@type\":\"Decimal\",\"T\":\"17.75\"},{\"OrgID\":\"West\",\"T@type\":\"Decimal\",\"T\":\"10.00\"},{\"OrgID\":\"East\",\"T@type\":\"Decimal\",\"T\":\"5.50\"}]}",
    ),
    (
        "Sales?$apply=groupby((rolluprecursive($root/Orgs,OrgTree,OrgID)),aggregate(ID with min as F,ID with max as L,$count as N,Best))",
        "200",
        "{\"@context\":\"$metadata#Sales(Best,F,L,N,OrgID)\",\"value\":[{\"Best@type\":\"Decimal\",\"Best\":\"17.75\",\"F@type\":\"Int64\",\"F\":\"1\",\"L@type\":\"Int64\",\"L\":\"6\",\"N@type\":\"Int64\",\"N\":\"5\",\"OrgID\":\"Corp\"},{\"Best@type\":\"Decimal\",\"Best\":\"7.25\",\"F@type\":\"Int64\",\"F\":\"3\",\"L@type\":\"Int64\",\"L\":\"3\",\"N@type\":\"Int64\",\"N\":\"1\",\"OrgID\":\"EMEA\"},{\"Best@type\":\"Decimal\",\"Best\":\"17.75\",\"F@type\":\"Int64\",\"F\":\"1\",\"L@type\":\"Int64\",\"L\":\"6\",\"N@type\":\"Int64\",\"N\":\"4\",\"OrgID\":\"US\"},{\"Best@type\":\"Decimal\",\"Best\":\"10.00\",\"F@type\":\"Int64\",\"F\":\"1\",\"L@type\":\"Int64\",\"L\":\"4\",\"N@type\":\"Int64\",\"N\":\"2\",\"OrgID\":\"West\"},{\"Best@type\":\"Decimal\",\"Best\":\"5.50\",\"F@type\":\"Int64\",\"F\":\"2\",\"L@type\":\"Int64\",\"L\":\"2\",\"N@type\":\"Int64\",\"N\":\"1\",\"OrgID\":\"East\"}]}",
    ),
    (
        "Sales?$apply=groupby((rolluprecursive($root/Orgs,OrgTree,OrgID)),aggregate(Amount with sum as T))/filter(OrgID eq 'US')",
        "200",
        "{\"@context\":\"$metadata#Sales(OrgID,T)\",\"value\":[{\"OrgID\":\"US\",\"T@type\":\"Decimal\",\"T\":\"17.75\"}]}",
    ),
    (
        "Sales?$apply=ancestors($root/Orgs,OrgTree,OrgID,filter(ID eq 1),1)",
        "200",
        "{\"@context\":\"$metadata#Sales\",\"value\":[{\"Amount\":\"2.25\",\"CustomerID\":\"C1\",\"ID\":\"6\",\"OrgID\":\"US\"}]}",
    ),
    (
        "Sales?$apply=ancestors($root/Orgs,OrgTree,OrgID,filter(ID eq 1),keep start)/groupby((ID))",
        "200",
        "{\"@context\":\"$metadata#Sales(ID)\",\"value\":[{\"ID\":\"1\"},{\"ID\":\"4\"},{\"ID\":\"6\"}]}",
    ),
    (
        "Sales?$apply=descendants($root/Orgs,OrgTree,OrgID,filter(ID eq 6 or ID eq 1),keep start)/aggregate($count as N)",
        "200",
        "{\"@context\":\"$metadata#Sales(N)\",\"value\":[{\"N@type\":\"Int64\",\"N\":\"4\"}]}",
    ),
    (
        "Orgs?$apply=traverse($root/Orgs,OrgTree,ID,preorder,ID desc)/groupby((ID))",
        "200",
        "{\"@context\":\"$metadata#Orgs(ID)\",\"value\":[{\"ID\":\"Lab\"},{\"ID\":\"Corp\"},{\"ID\":\"US\"},{\"ID\":\"West\"},{\"ID\":\"East\"},{\"ID\":\"EMEA\"}]}",
    ),
    (
        "Sales?$apply=groupby((rolluprecursive($root/Orgs,OrgTree,OrgID,filter(ID eq 'Lab'))),aggregate($count as N))",
        "200",
        "{\"@context\":\"$metadata#Sales(N,OrgID)\",\"value\":[]}",
    ),
    (
        "explain Sales?$apply=groupby((rolluprecursive($root/Orgs,OrgTree,OrgID)),aggregate(Amount with sum as T))",
        "200",
        "{\"plan\":\"groupby((rolluprecursive($root/Orgs,OrgTree,OrgID)),aggregate(Amount with sum as T))\"}",
    ),
];

/// Requests over the sample's model and two organisations, each the parent of the other.
const CYCLIC: &[(&str, &str, &str)] = &[
    (
        "Sales?$apply=groupby((rolluprecursive($root/Orgs,OrgTree,OrgID)),aggregate(Amount with sum as T))",
        "422",
        "{\"error\":{\"code\":\"Cycle\",\"message\":\"the hierarchy has a cycle\",\"target\":\"A\"}}",
    ),
    (
        "Orgs?$apply=traverse($root/Orgs,OrgTree,ID,postorder)",
        "422",
        "{\"error\":{\"code\":\"Cycle\",\"message\":\"the hierarchy has a cycle\",\"target\":\"A\"}}",
    ),
    (
        "Sales?$apply=concat(identity,groupby((CustomerID),ancestors($root/Orgs,OrgTree,OrgID,identity)))",
        "422",
        "{\"error\":{\"code\":\"Cycle\",\"message\":\"the hierarchy has a cycle\",\"target\":\"A\"}}",
    ),
    (
        "explain Sales?$apply=groupby((rolluprecursive($root/Orgs,OrgTree,OrgID)),aggregate(Amount with sum as T))",
        "200",
        "{\"plan\":\"groupby((rolluprecursive($root/Orgs,OrgTree,OrgID)),aggregate(Amount with sum as T))\"}",
    ),
    (
        "Sales?$apply=filter(Nope eq 1)/traverse($root/Orgs,OrgTree,OrgID,preorder)",
        "400",
        "{\"error\":{\"code\":\"Type\",\"message\":\"the transformation has no type\",\"target\":\"1\"}}",
    ),
    (
        "Sales?$apply=aggregate(Amount with sum as Total)",
        "200",
        "{\"@context\":\"$metadata#Sales(Total)\",\"value\":[{\"Total@type\":\"Decimal\",\"Total\":null}]}",
    ),
    (
        "Orgs?$apply=filter(Superordinate/Superordinate/ID eq ID)/groupby((ID))",
        "200",
        "{\"@context\":\"$metadata#Orgs(ID)\",\"value\":[{\"ID\":\"A\"},{\"ID\":\"B\"}]}",
    ),
];

/// Items whose parts are a tree and whose copies are a cycle, and a shop before itself.
const LOOPS: &str =
    "{\"Items\":[{\"Code\":1,\"Ratio\":\"1\",\"Made\":\"2020-01-01\",\"Label\":\"a\",\"Opened\":\"2020-02-29\"},{\"Code\":7,\"Ratio\":\"1\",\"Made\":\"2020-01-01\",\"Label\":\"b\",\"PartOf\":1,\"Twin\":8,\"Opened\":\"2020-02-29\"},{\"Code\":8,\"Ratio\":\"1\",\"Made\":\"2020-01-01\",\"Label\":\"c\",\"PartOf\":7,\"Twin\":7,\"Opened\":\"2020-02-29\"}],\"Shops\":[{\"Day\":\"2020-02-29\",\"City\":\"x\",\"Before\":\"2020-02-29\"}]}";

/// The same over these items and the shop.
const LOOPED: &[(&str, &str, &str)] = &[
    (
        "Items?$apply=traverse($root/Items,Tree,Code,postorder)/groupby((Code))",
        "200",
        "{\"@context\":\"$metadata#Items(Code)\",\"value\":[{\"Code\":\"8\"},{\"Code\":\"7\"},{\"Code\":\"1\"}]}",
    ),
    (
        "Items?$apply=traverse($root/Items,Copies,Code,preorder)",
        "422",
        "{\"error\":{\"code\":\"Cycle\",\"message\":\"the hierarchy has a cycle\",\"target\":\"7\"}}",
    ),
    (
        "Items?$apply=concat(traverse($root/Items,Tree,Code,preorder),ancestors($root/Shops,Moves,Opened,traverse($root/Items,Copies,Code,preorder)))",
        "422",
        "{\"error\":{\"code\":\"Cycle\",\"message\":\"the hierarchy has a cycle\",\"target\":\"2020-02-29\"}}",
    ),
    (
        "Items?$apply=groupby((Label),descendants($root/Items,Tree,Code,ancestors($root/Items,Copies,Code,traverse($root/Shops,Moves,Opened,preorder)),1))",
        "422",
        "{\"error\":{\"code\":\"Cycle\",\"message\":\"the hierarchy has a cycle\",\"target\":\"7\"}}",
    ),
    (
        "Items?$apply=groupby((rolluprecursive($root/Items,Tree,PartOf,traverse($root/Items,Copies,Code,preorder))))",
        "422",
        "{\"error\":{\"code\":\"Cycle\",\"message\":\"the hierarchy has a cycle\",\"target\":\"7\"}}",
    ),
];

/// Compares the response to a request over a model and its data, run as `--plan` says.
fn expect_answer<'a, R: Threads + Sync + Abort>(
    rt: &R,
    alloc: Global,
    model: &'a str,
    data: &'a str,
    words: &'a [&'a str],
    answer: &'a (&'a str, &'a str, &'a str),
) -> Result<(), Fail> {
    let (line, code, body) = answer;
    let case = Case {
        model,
        data,
        input: line.as_bytes(),
        words,
        ..PLAIN
    };
    let length = body.len();
    let expected = format!(in alloc; "{code} {length}\n{body}\n")?;
    expect_run(rt, alloc, &case, Status::Served, expected.as_bytes())
}

/// Compares the responses to requests over a model and its data, by their plans and as they are written.
pub(crate) fn expect_answers<'a, R: Threads + Sync + Abort>(
    rt: &R,
    alloc: Global,
    model: &'a str,
    data: &'a str,
    answers: &'a [(&'a str, &'a str, &'a str)],
) -> Result<(), Fail> {
    for answer in answers {
        expect_answer(rt, alloc, model, data, &["--plan", "optimised"], answer)?;
        expect_answer(rt, alloc, model, data, &["--plan", "written"], answer)?;
    }
    Ok(())
}

#[test]
fn pipelines_have_their_bodies(rt: HostRuntime) -> Result<(), Fail> {
    let alloc = rt.alloc();
    expect_answers(&rt, alloc, SAMPLE, SALES_DATA, ANSWERS)?;
    expect_answers(&rt, alloc, SAMPLE, SALES_DATA, GROUPED)?;
    expect_answers(&rt, alloc, SAMPLE, SALES_DATA, BY_NODES)?;
    expect_answers(&rt, alloc, SAMPLE, CYCLE_DATA, CYCLIC)?;
    expect_answers(&rt, alloc, STOCK, LOOPS, LOOPED)
}
