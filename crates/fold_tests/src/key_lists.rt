//! Lists of keys and their groups.
ghost use Rattle.std.specs.Prelude.{◌<◌, ◌≤◌, IfOk};
ghost use Rattle.std.specs.List.{All};
ghost use Rattle.aggregate_ops.specs.KeyTables.{HasWidth};

use crate::words::{value_of, word_of};
use aggregate_ops::{Groups, KeyTable, Seed};
use edm_values::{EdmType, Value};
use par_stages::{NoGate, pieces};
use std::alloc::Global;
use std::process::Abort;
use std::test::Fail;
use std::thread::Threads;

/// Lists of keys of one width, and their groups: each key with its places.
const KEYS: &[(usize, &[&str], &str)] = &[
    (
        2,
        &[
            "US 1",
            "null 1",
            "US 2",
            "null 1",
            "US 1",
            "null null",
            "1 US",
        ],
        "US 1: 0 4; null 1: 1 3; US 2: 2; null null: 5; 1 US: 6",
    ),
    // In order of first appearance, and not in that of the keys.
    (
        1,
        &["b", "a", "b", "null", "a", "null"],
        "b: 0 2; a: 1 4; null: 3 5",
    ),
    // Equal numbers of several scales are several keys, as they are several values.
    (
        1,
        &["1", "1.0", "1.00", "1.0", "1"],
        "1: 0 4; 1.0: 1 3; 1.00: 2",
    ),
    // A key without values is the key of all.
    (0, &["", "", ""], ": 0 1 2"),
    (0, &[], ""),
    (2, &[], ""),
];

/// The type of a word: a decimal where it has a point, an integer where it is one, and else a text.
fn kind_of(word: &str) -> EdmType {
    if let Some((_, digits)) = word.split_once('.') {
        return EdmType::Dec {
            scale: u8::try_from(digits.len()).unwrap_or(0),
            precision: 18,
        };
    }
    if word.parse::<i64>().is_ok() {
        EdmType::Int
    } else {
        EdmType::Text
    }
}

/// The key of the words of a text.
fn key_of(alloc: Global, text: &str) -> Result<Vec<Value>, Fail> {
    let mut key = Vec::new(alloc);
    for word in text.split_whitespace() {
        key.push(value_of(alloc, kind_of(word), word)?)?;
    }
    Ok(key)
}

/// The keys of texts, each of this width.
fn keys_of(alloc: Global, width: usize, texts: &[&str]) -> Result<Vec<Vec<Value>>, Fail>
    ensures { IfOk result (λ ks. All (HasWidth width) ks.items) }
{
    let mut keys = Vec::new(alloc);
    for text in texts {
        let key = key_of(alloc, text)?;
        if key.len() != width {
            return Err(Fail::new("a key of another width"));
        }
        keys.push(key)?;
    }
    Ok(keys)
}

/// A group as its words, and its places.
fn push_group(
    text: &mut String,
    alloc: Global,
    key: &[Value],
    places: &[usize],
) -> Result<(), Fail> {
    for (k, value) in key.iter().enumerate() {
        if k > 0 {
            text.push_str(" ")?;
        }
        text.push_str(word_of(alloc, value)?.as_str())?;
    }
    text.push_str(":")?;
    for place in places {
        text.push_str(format!(in alloc; " {place}")?.as_str())?;
    }
    Ok(())
}

/// Groups as text.
fn shown(alloc: Global, groups: &Groups) -> Result<String, Fail> {
    let mut text = String::new(alloc);
    for k in 0..groups.len() {
        if k > 0 {
            text.push_str("; ")?;
        }
        push_group(&mut text, alloc, groups.key(k), groups.places(k))?;
    }
    Ok(text)
}

/// The groups of keys that are folded in so many pieces: those that the table tells, and those that it is given up for.
fn groups_of<R: Threads + Sync>(
    rt: &R,
    alloc: Global,
    width: usize,
    keys: &[Vec<Value>],
    workers: u32,
) -> Result<(String, String), Fail>
    requires some { 0 < workers }
    requires few { workers ≤ 64 }
    requires width { All (HasWidth width) keys.now }
{
    let table = pieces(
        rt,
        keys,
        workers,
        &NoGate,
        &KeyTable::new(alloc, width, Seed::of(keys)),
    )?;
    let told = shown(alloc, &table.groups()?)?;
    let given = shown(alloc, &table.into_groups()?)?;
    Ok((told, given))
}

/// Compares the groups of keys, in one piece, in two and in three, and in as many as may be.
fn expect_groups<R: Threads + Sync + Abort>(
    rt: &R,
    alloc: Global,
    width: usize,
    texts: &[&str],
    expected: &str,
) -> Result<(), Fail> {
    let keys = keys_of(alloc, width, texts)?;
    for workers in [1, 2, 3, 64] {
        let (told, given) = groups_of(rt, alloc, width, keys.as_slice(), workers)?;
        assert_eq!(rt; (told.as_str(), given.as_str()), (expected, expected));
    }
    Ok(())
}

#[test]
fn keys_stand_in_order_with_their_places(rt: HostRuntime) -> Result<(), Fail> {
    for (width, texts, expected) in KEYS {
        expect_groups(&rt, rt.alloc(), *width, texts, expected)?;
    }
    Ok(())
}
