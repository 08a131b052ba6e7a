//! The outside fails, or gives and takes few bytes at a time, while requests of every form are answered.
use crate::worlds::{PLAIN, expect_ended};
use apply_service::Status;
use run_support::{Case, RunResult, outcome};
use std::alloc::Global;
use std::process::Abort;
use std::test::Fail;
use std::thread::Threads;
use test_support::samples::{CYCLE_DATA, SALES_DATA, SAMPLE};

/// Requests of every form, and lines that are refused. Two lines are empty, and the last one has no LF.
const LINES: &str = concat!(
    "Sales?$apply=identity/skip(1)/top(2)\r\n",
    "Sales?$apply=filter(Amount gt 5 and not startswith(OrgID,'W'))\n",
    "Sales?$apply=compute(Amount mul 2 as D)/orderby(D desc,ID)/groupby((ID,D))\n",
    "Sales?$apply=aggregate($count as N,Amount with sum as T,ID with min as L,ID with max as M,OrgID with countdistinct as C,Best)\n",
    "\n",
    "Sales?$apply=groupby((Customer/Country),aggregate(Amount with sum as T))\n",
    "Sales?$apply=groupby((rollup($all,Customer/Country,CustomerID)),aggregate($count as N))\n",
    "Sales?$apply=groupby((rolluprecursive($root/Orgs,OrgTree,OrgID,filter(ID ne 'US'))),aggregate(Amount with sum as T))\n",
    "Sales?$apply=concat(topcount(2,Amount),aggregate(Amount with sum as T))\n",
    "Sales?$apply=bottomcount(3,Amount)/topsum(9,Amount)/bottomsum(1,Amount)/toppercent(50,Amount)/bottompercent(9,Amount)\n",
    "Customers?$apply=join(Sales as S)/groupby((Country),aggregate(S/Amount with sum as T))\n",
    "Customers?$apply=outerjoin(Sales as S,filter(Amount gt 5))\n",
    "\r\n",
    "Sales?$apply=ancestors($root/Orgs,OrgTree,OrgID,filter(ID eq 1),1)\n",
    "Sales?$apply=descendants($root/Orgs,OrgTree,OrgID,filter(ID eq 6),keep start)\n",
    "Orgs?$apply=traverse($root/Orgs,OrgTree,ID,postorder,ID desc)\n",
    "explain Sales?$apply=concat(filter(ID eq 1),filter(ID eq 1))\n",
    "Shops?$apply=identity\n",
    "Sales?$apply=identity/\n",
    "Sales?$apply=filter(null)\n",
    "Sales?$apply=compute(Amount mul 100000000000000000 as X)\n",
    "/Sales?%24apply=aggregate(%24count as N)",
);

/// How many responses there are to these lines.
const RESPONSES: usize = 20;

/// How many lines that are not empty an LF ends.
fn ended_lines(input: &[u8]) -> usize {
    let mut count = 0usize;
    let mut is_empty = true;
    for byte in input {
        match *byte {
            b'\n' => {
                if !is_empty {
                    count = count.saturating_add(1);
                }
                is_empty = true;
            }
            b'\r' => {}
            _ => is_empty = false,
        }
    }
    count
}

/// The first responses, so many of them: each has a first line, and a body with an LF behind it.
fn first_responses(output: &[u8], count: usize) -> &[u8] {
    let mut left = count.saturating_mul(2);
    for (at, byte) in output.iter().enumerate() {
        if left == 0 {
            return output.get(..at).unwrap_or(output);
        }
        if *byte == b'\n' {
            left -= 1;
        }
    }
    output
}

/// A run over the sample's model in which nothing fails: all lines are answered.
fn undisturbed<R: Threads + Sync + Abort>(
    rt: &R,
    alloc: Global,
    case: &Case<'_>,
) -> Result<RunResult, Fail> {
    let whole = outcome(rt, alloc, case)?;
    let output = whole.output.as_slice();
    expect_ended(
        rt,
        &whole,
        Status::Served,
        first_responses(output, RESPONSES),
        "all",
        0,
    );
    assert!(rt; first_responses(output, RESPONSES - 1).len() < output.len());
    Ok(whole)
}

/// The lines over these data, with so many bytes in each read and each write.
fn lines_over(data: &str, most: usize) -> Case<'_> {
    Case {
        model: SAMPLE,
        data,
        input: LINES.as_bytes(),
        most,
        ..PLAIN
    }
}

/// How many bytes a read gives where each read fails in turn.
const PIECE: usize = 3;

/// Runs the lines where a read fails behind so many others: the lines that ended before it are answered as in the whole output.
fn expect_answered<R: Threads + Sync + Abort>(
    rt: &R,
    alloc: Global,
    data: &str,
    reads: usize,
    whole: &[u8],
) -> Result<(), Fail> {
    let input_fails = (reads as u64).saturating_add(1);
    let case = Case {
        input_fails,
        ..lines_over(data, PIECE)
    };
    let ran = outcome(rt, alloc, &case)?;
    let taken = reads.saturating_mul(PIECE);
    let lines = ended_lines(case.input.get(..taken).unwrap_or(case.input));
    let answered = first_responses(whole, lines);
    expect_ended(rt, &ran, Status::ReadFault, answered, "reads", reads);
    Ok(())
}

#[test]
fn whichever_read_fails_the_lines_that_ended_before_it_are_answered(
    rt: HostRuntime,
) -> Result<(), Fail> {
    for data in [SALES_DATA, CYCLE_DATA] {
        let whole = undisturbed(&rt, rt.alloc(), &lines_over(data, PIECE))?;
        for reads in 0..=LINES.len().div_ceil(PIECE) {
            expect_answered(&rt, rt.alloc(), data, reads, whole.output.as_slice())?;
        }
    }
    Ok(())
}

/// More writes than the responses take in parts of 16 bytes.
const WRITES: u64 = 1000;

/// Compares what is written where a write fails with the whole output, and with how much was written where the one before it failed.
fn expect_front(rt: &impl Abort, ran: &RunResult, output_fails: u64, whole: &[u8], before: usize) {
    let output = ran.output.as_slice();
    assert_eq!(rt; ran.status, Status::WriteFault, "{output_fails}");
    assert!(rt; whole.starts_with(output), "{output_fails}");
    assert!(rt; output.is_empty() == (output_fails == 1), "{output_fails}");
    assert!(rt; before <= output.len(), "{output_fails}");
}

/// Runs a case where each write fails in turn, until none does any more.
fn expect_fronts<R: Threads + Sync + Abort>(
    rt: &R,
    alloc: Global,
    case: &Case<'_>,
    whole: &[u8],
) -> Result<(), Fail> {
    let mut before = 0;
    for output_fails in 1..=WRITES {
        let ran = outcome(
            rt,
            alloc,
            &Case {
                output_fails,
                ..*case
            },
        )?;
        if ran.output.len() == whole.len() {
            assert_eq!(rt; ran.status, Status::Served, "{output_fails}");
            break;
        }
        expect_front(rt, &ran, output_fails, whole, before);
        before = ran.output.len();
    }
    assert_eq!(rt; before.saturating_add(1), whole.len(), "{}", case.most);
    Ok(())
}

/// Data, and how many bytes a write takes.
const WRITTEN: &[(&str, usize)] = &[(SALES_DATA, 4096), (SALES_DATA, 16), (CYCLE_DATA, 16)];

#[test]
fn whichever_write_fails_what_was_written_is_a_front(rt: HostRuntime) -> Result<(), Fail> {
    for (data, most) in WRITTEN {
        let case = lines_over(data, *most);
        let whole = undisturbed(&rt, rt.alloc(), &case)?;
        expect_fronts(&rt, rt.alloc(), &case, whole.output.as_slice())?;
    }
    Ok(())
}

/// More bytes than a line or a response has.
const COUNTS: usize = 600;

#[test]
fn however_few_bytes_a_read_gives_and_a_write_takes_the_responses_are_the_same(
    rt: HostRuntime,
) -> Result<(), Fail> {
    let whole = undisturbed(&rt, rt.alloc(), &lines_over(SALES_DATA, PLAIN.most))?;
    for most in 1..=COUNTS {
        let ran = outcome(&rt, rt.alloc(), &lines_over(SALES_DATA, most))?;
        expect_ended(
            &rt,
            &ran,
            Status::Served,
            whole.output.as_slice(),
            "bytes",
            most,
        );
    }
    Ok(())
}
