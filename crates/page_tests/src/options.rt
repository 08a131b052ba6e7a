//! What words are read as, and what is told of wrong ones.
use serve_options::{Mode, OptionsRefused, read_options, usage_text};
use std::alloc::Global;
use std::test::Fail;

/// Wrong words, and what is told of them.
const WRONG: &[(&[&str], &str)] = &[
    (
        &["--model", "m", "--data", "d", "--workers", "0"],
        "apply_serve: --workers takes a whole number from 1 to 64, not \"0\"; see apply_serve --help",
    ),
    (
        &["--model", "m", "--data", "d", "--max-bytes", "+1"],
        "apply_serve: --max-bytes takes a whole number from 0 to 9223372036854775807, not \"+1\"; see apply_serve --help",
    ),
    (
        &["--mode", "gen", "--count", "200001"],
        "apply_serve: --count takes a whole number from 1 to 200000, not \"200001\"; see apply_serve --help",
    ),
    (
        &["--model", "m", "--data", "d", "--plan", "fast\n"],
        "apply_serve: --plan takes written or optimised, not \"fast\\n\"; see apply_serve --help",
    ),
    (
        &["--mode", "Check"],
        "apply_serve: --mode takes serve, check or gen, not \"Check\"; see apply_serve --help",
    ),
    (
        &["--mode", "check", "--model", "m"],
        "apply_serve: mode check wants --model FILE and --data FILE; see apply_serve --help",
    ),
    (
        &[],
        "apply_serve: mode serve wants --model FILE and --data FILE; see apply_serve --help",
    ),
    (
        &["--model", "m", "--model", "n", "--data", "d"],
        "apply_serve: the argument '--model <FILE>' cannot be used multiple times; see apply_serve --help",
    ),
    (
        &["--model", "m", "--data"],
        "apply_serve: a value is required for '--data <FILE>' but none was supplied; see apply_serve --help",
    ),
    (
        &["--modle", "m"],
        "apply_serve: unexpected argument '--modle' found; tip: a similar argument exists: '--mode'; see apply_serve --help",
    ),
    (
        &["m\u{1b}[31m\n\nUsage: x"],
        "apply_serve: unexpected argument 'm\\u001b[31m\\n\\nUsage: x' found; see apply_serve --help",
    ),
];

/// Words as texts.
fn texts(alloc: Global, words: &[&str]) -> Result<Vec<String>, Fail> {
    let mut texts = Vec::new(alloc);
    for word in words {
        texts.push(String::from_str(alloc, word)?)?;
    }
    Ok(texts)
}

#[test]
fn wrong_words_are_told_what_to_mend(rt: HostRuntime) -> Result<(), Fail> {
    let alloc = rt.alloc();
    for (words, expected) in WRONG {
        let words = texts(alloc, words)?;
        let refused = read_options(alloc, words.as_slice()).err();
        assert_eq!(rt; refused, Some(OptionsRefused::Usage), "{expected}");
        let text = usage_text(alloc, words.as_slice())?;
        assert_eq!(rt; text.as_str(), *expected);
    }
    Ok(())
}

/// Each option, as help names it.
const OPTIONS: &[&str] = &[
    "--model <FILE>",
    "--data <FILE>",
    "--workers <N>",
    "--max-bytes <N>",
    "--plan <PLAN>",
    "--mode <MODE>",
    "--count <N>",
];

#[test]
fn a_call_for_help_is_told_each_option(rt: HostRuntime) -> Result<(), Fail> {
    let alloc = rt.alloc();
    let words = texts(alloc, &["--help"])?;
    let text = usage_text(alloc, words.as_slice())?;
    for option in OPTIONS {
        assert!(rt; text.contains(*option), "{option}");
    }
    Ok(())
}

#[test]
fn options_that_are_not_given_have_their_defaults(rt: HostRuntime) -> Result<(), Fail> {
    let alloc = rt.alloc();
    let words = texts(alloc, &["--data", "d", "--model=m"])?;
    let Ok(options) = read_options(alloc, words.as_slice()) else {
        panic!(rt; "the words are refused");
    };
    let found = (options.workers, options.max_bytes, options.is_optimised);
    assert_eq!(rt; found, (4, 1_073_741_824, true));
    let Mode::Serve(files) = &options.mode else {
        panic!(rt; "another mode");
    };
    let names = (files.model.as_str(), files.entities.as_str());
    assert_eq!(rt; names, ("m", "d"));
    Ok(())
}
