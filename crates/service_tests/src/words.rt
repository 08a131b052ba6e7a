//! The words of the command.
use crate::worlds::{LINES, PLAIN, RESPONSES};
use apply_service::Status;
use run_support::{outcome_of, texts};
use std::alloc::Global;
use std::process::Abort;
use std::test::Fail;
use std::thread::Threads;

const NAMED: &[&str] = &["--model", "m", "--data", "d"];

/// Words that do not meet the command, or whose values break a rule.
const WRONG: &[&[&str]] = &[
    &[],
    &["--model", "m"],
    &["--data", "d"],
    &["--model", "m", "--data"],
    &["--model", "m", "--data", "d", "x"],
    &["--model", "m", "--model", "m", "--data", "d"],
    &["--model", "m", "--data", "d", "--data", "d"],
    &["--modle", "m", "--data", "d"],
    &["--help"],
    &["--model", "m", "--data", "d", "--help"],
    &["serve", "--model", "m", "--data", "d"],
    &["--model", "m", "--data", "d", "--workers"],
    &["--model", "m", "--data", "d", "--workers", "0"],
    &["--model", "m", "--data", "d", "--workers", "65"],
    &["--model", "m", "--data", "d", "--workers", "+1"],
    &["--model", "m", "--data", "d", "--workers", "-0"],
    &["--model", "m", "--data", "d", "--workers=-1"],
    &["--model", "m", "--data", "d", "--workers", ""],
    &["--model", "m", "--data", "d", "--workers", " 1"],
    &["--model", "m", "--data", "d", "--workers", "1x"],
    &[
        "--model",
        "m",
        "--data",
        "d",
        "--workers",
        "4",
        "--workers",
        "4",
    ],
    &[
        "--model",
        "m",
        "--data",
        "d",
        "--max-bytes",
        "9223372036854775808",
    ],
    &[
        "--model",
        "m",
        "--data",
        "d",
        "--max-bytes",
        "99999999999999999999999999",
    ],
    &["--model", "m", "--data", "d", "--max-bytes", "1e3"],
    &["--model", "m", "--data", "d", "--count", "0"],
    &["--model", "m", "--data", "d", "--count", "200001"],
    &["--model", "m", "--data", "d", "--plan", "optimized"],
    &["--model", "m", "--data", "d", "--plan", ""],
    &["--model", "m", "--data", "d", "--mode", "Serve"],
    &["--mode", "serve"],
    &["--mode", "check", "--model", "m"],
    &["--mode", "gen", "--count", "200001"],
    &["--mode", "gen", "--workers", "0"],
    &["", ""],
];

/// Words behind those that name the two files, which meet the command.
const RIGHT: &[&[&str]] = &[
    &[],
    &["--workers", "1"],
    &["--workers", "64"],
    &["--workers=0004"],
    &["--max-bytes", "9223372036854775807"],
    &["--count", "200000"],
    &["--count", "1", "--plan", "written"],
    &["--plan=optimised", "--mode", "serve"],
];

/// Runs over the sample with these words, and compares how it ends and what it writes.
fn expect_words<R: Threads + Sync + Abort>(
    rt: &R,
    alloc: Global,
    words: &[String],
    status: Status,
    output: &[u8],
) -> Result<(), Fail> {
    let ran = outcome_of(rt, alloc, &PLAIN, words, LINES.to_vec(alloc)?)?;
    assert_eq!(rt; ran.status, status, "{words:?}");
    assert_eq!(rt; ran.output.as_slice(), output, "{words:?}");
    Ok(())
}

/// The words of two lists, one behind the other.
fn joined(alloc: Global, first: &[&str], second: &[&str]) -> Result<Vec<String>, Fail> {
    let mut words = texts(alloc, first)?;
    for word in second {
        words.push(String::from_str(alloc, word)?)?;
    }
    Ok(words)
}

#[test]
fn words_are_judged_before_anything_is_read(rt: HostRuntime) -> Result<(), Fail> {
    for wrong in WRONG {
        let words = texts(rt.alloc(), wrong)?;
        expect_words(&rt, rt.alloc(), &words, Status::Usage, b"")?;
    }
    for right in RIGHT {
        for (first, second) in [(NAMED, *right), (*right, NAMED)] {
            let words = joined(rt.alloc(), first, second)?;
            expect_words(&rt, rt.alloc(), &words, Status::Served, RESPONSES)?;
        }
    }
    Ok(())
}
