//! Worked examples. The expected texts come from the rules and from a program that was written apart from this one.
use edm_values::{
    Day, Dec, EdmType, ReadRefused, Seen, Text, Value, add, compare, mul, neg, order, print_value,
    read_value, sub,
};
use indexmap::IndexMap;
use std::alloc::{AllocError, Global};
use std::cmp::Ordering;
use std::collections::BTreeMap;
use std::process::Abort;
use std::test::Fail;

/// The plain text of a value, or a word for what has none.
fn shown(alloc: Global, value: Seen<'_>) -> Result<Vec<u8>, AllocError> {
    let mut out = Vec::new(alloc);
    match value {
        Seen::Null => out.extend_from_slice(b"null")?,
        Seen::Beyond => out.extend_from_slice(b"Beyond")?,
        other => print_value(other, &mut out)?,
    }
    Ok(out)
}

/// The plain text of what a text is read as, or the name of the refusal.
fn reading(alloc: Global, text: &str, kind: EdmType) -> Result<Vec<u8>, AllocError> {
    match read_value(alloc, text, kind) {
        Ok(value) => shown(alloc, value.seen()),
        Err(ReadRefused::Shape) => Vec::from_slice(alloc, b"Shape"),
        Err(ReadRefused::Range) => Vec::from_slice(alloc, b"Range"),
        Err(ReadRefused::Memory) => Vec::from_slice(alloc, b"Memory"),
    }
}

fn expect_readings(
    rt: &impl Abort,
    alloc: Global,
    kind: EdmType,
    rows: &[(&str, &str)],
) -> Result<(), Fail> {
    for (text, expected) in rows {
        let found = reading(alloc, text, kind)?;
        assert_eq!(rt; found.as_slice(), expected.as_bytes(), "reading {text:?}");
    }
    Ok(())
}

/// Integers of 64 bits.
const INTEGERS: &[(&str, &str)] = &[
    ("0", "0"),
    ("-0", "0"),
    ("+0", "0"),
    ("7", "7"),
    ("+7", "7"),
    ("-7", "-7"),
    ("007", "7"),
    ("00000000000000000000000000000007", "7"),
    ("9223372036854775807", "9223372036854775807"),
    ("9223372036854775808", "Range"),
    ("+9223372036854775808", "Range"),
    ("-9223372036854775808", "-9223372036854775808"),
    ("-9223372036854775809", "Range"),
    ("18446744073709551617", "Range"),
    ("-99999999999999999999999999", "Range"),
    ("", "Shape"),
    ("+", "Shape"),
    ("-", "Shape"),
    ("+-1", "Shape"),
    ("--1", "Shape"),
    (" 1", "Shape"),
    ("1 ", "Shape"),
    ("1.0", "Shape"),
    ("1e3", "Shape"),
    ("0x10", "Shape"),
    ("1_000", "Shape"),
    ("٣", "Shape"),
];

/// Decimals of scale 2 and precision 4.
const DECIMALS_2: &[(&str, &str)] = &[
    ("12.340", "12.34"),
    ("12.345", "Shape"),
    ("123.45", "Range"),
    ("123.456", "Shape"),
    ("99.99", "99.99"),
    ("100.00", "Range"),
    ("-99.99", "-99.99"),
    ("-100", "Range"),
    ("0", "0.00"),
    ("-0", "0.00"),
    ("0.00", "0.00"),
    ("-0.05", "-0.05"),
    ("+1.5", "1.50"),
    ("1.", "Shape"),
    (".5", "Shape"),
    (".", "Shape"),
    ("1.2.3", "Shape"),
    ("1,5", "Shape"),
    ("", "Shape"),
    ("-", "Shape"),
    ("+", "Shape"),
    ("00012.3400000", "12.34"),
    ("1.000000001", "Shape"),
    (" 1.5", "Shape"),
    ("1e2", "Shape"),
    ("9", "9.00"),
    ("12.3a", "Shape"),
];

/// Decimals of scale 0 and precision 18.
const DECIMALS_0: &[(&str, &str)] = &[
    ("7", "7"),
    ("7.000", "7"),
    ("7.5", "Shape"),
    ("999999999999999999", "999999999999999999"),
    ("1000000000000000000", "Range"),
    ("-999999999999999999", "-999999999999999999"),
    ("-1000000000000000000", "Range"),
    ("000000000000000000000000000001", "1"),
];

/// Decimals of scale 9 and precision 18.
const DECIMALS_9: &[(&str, &str)] = &[
    ("999999999.999999999", "999999999.999999999"),
    ("-999999999.999999999", "-999999999.999999999"),
    ("1000000000", "Range"),
    ("0.000000001", "0.000000001"),
    ("0.0000000001", "Shape"),
    ("0.0000000010", "0.000000001"),
    ("-1000000000.0", "Range"),
];

/// Decimals of scale 9 and precision 9.
const DECIMALS_BELOW_1: &[(&str, &str)] = &[
    ("0.999999999", "0.999999999"),
    ("1", "Range"),
    ("0.5", "0.500000000"),
];

/// Days.
const DAYS: &[(&str, &str)] = &[
    ("2021-02-29", "Range"),
    ("2020-02-29", "2020-02-29"),
    ("1900-02-29", "Range"),
    ("2000-02-29", "2000-02-29"),
    ("0000-01-01", "Range"),
    ("0001-01-01", "0001-01-01"),
    ("9999-12-31", "9999-12-31"),
    ("10000-01-01", "Shape"),
    ("2021-13-01", "Range"),
    ("2021-00-10", "Range"),
    ("2021-04-31", "Range"),
    ("2021-04-00", "Range"),
    ("2021-4-01", "Shape"),
    ("2021-04-1", "Shape"),
    ("+021-04-01", "Shape"),
    ("2021/04/01", "Shape"),
    ("2021-04-01 ", "Shape"),
    ("", "Shape"),
    ("2021-04-0a", "Shape"),
];

/// Booleans.
const BOOLEANS: &[(&str, &str)] = &[
    ("true", "true"),
    ("false", "false"),
    ("True", "Shape"),
    ("1", "Shape"),
    ("", "Shape"),
    ("true ", "Shape"),
];

/// Texts.
const TEXTS: &[(&str, &str)] = &[("", ""), ("a \"text\"", "a \"text\""), ("ß€", "ß€")];

/// Types, and their texts.
const READINGS: &[(EdmType, &[(&str, &str)])] = &[
    (EdmType::Int, INTEGERS),
    (
        EdmType::Dec {
            scale: 2,
            precision: 4,
        },
        DECIMALS_2,
    ),
    (
        EdmType::Dec {
            scale: 0,
            precision: 18,
        },
        DECIMALS_0,
    ),
    (
        EdmType::Dec {
            scale: 9,
            precision: 18,
        },
        DECIMALS_9,
    ),
    (
        EdmType::Dec {
            scale: 9,
            precision: 9,
        },
        DECIMALS_BELOW_1,
    ),
    (EdmType::Day, DAYS),
    (EdmType::Bool, BOOLEANS),
    (EdmType::Text, TEXTS),
];

#[test]
fn texts_are_read_by_their_type(rt: HostRuntime) -> Result<(), Fail> {
    for (kind, rows) in READINGS {
        expect_readings(&rt, rt.alloc(), *kind, rows)?;
    }
    Ok(())
}

/// The value of a word: `null`, `Beyond`, a number with so many digits behind its point, a Boolean, a day, or else a text. A decimal of
/// scale 0 ends in a point.
fn value_of(alloc: Global, word: &str) -> Result<Value, Fail> {
    match word {
        "null" => return Ok(Value::Null),
        "Beyond" => return Ok(Value::Beyond),
        _ => {}
    }
    if let Some((whole, digits)) = word.split_once('.') {
        let scale = u8::try_from(digits.len()).unwrap_or(0);
        let text = if scale == 0 { whole } else { word };
        let precision = 18;
        return Ok(read_value(alloc, text, EdmType::Dec { scale, precision })?);
    }
    for kind in [EdmType::Int, EdmType::Bool, EdmType::Day] {
        if let Ok(value) = read_value(alloc, word, kind) {
            return Ok(value);
        }
    }
    Ok(read_value(alloc, word, EdmType::Text)?)
}

/// Sums, differences, products and negatives, and of two values how they compare and which order they have.
const COMPUTED: &str = r"
1 add 0.25 => 1.25
9223372036854775807 add 1 => Beyond
9223372036854775807 add 0.0 => Beyond
9999999999999999.99 add 0.01 => Beyond
-0.5 add 0.05 => -0.45
null add Beyond => Beyond
null add 1 => null
-9223372036854775808 sub 1 => Beyond
1 sub -9223372036854775808 => Beyond
1.00 sub 1 => 0.00
2.5 mul 0.25 => 0.625
-9223372036854775808 mul -1 => Beyond
3037000499 mul 3037000499 => 9223372030926249001
3037000500 mul 3037000500 => Beyond
1 mul 7. => 7
-9223372036854775808 neg => Beyond
9223372036854775807 neg => -9223372036854775807
0.05 neg => -0.05
null neg => null
1 compares 1.00 => equal
1 orders 1.00 => less
1.00 compares 1.0 => equal
1.00 orders 1.0 => greater
0.5 compares 0.49 => greater
0.5 orders 0.49 => greater
-9223372036854775808 compares -999999999999999999. => less
-9223372036854775808 orders -999999999999999999. => less
false compares true => less
false orders true => less
Z compares a => less
Z orders a => less
ab compares a => greater
ab orders a => greater
2020-12-31 compares 2021-01-01 => less
2020-12-31 orders 2021-01-01 => less
null compares 1 => none
null orders 1 => less
Beyond compares z => none
Beyond orders z => greater
null compares null => none
null orders null => equal
";

fn name_of(found: Option<Ordering>) -> &'static [u8] {
    match found {
        None => b"none".as_slice(),
        Some(Ordering::Less) => b"less".as_slice(),
        Some(Ordering::Equal) => b"equal".as_slice(),
        Some(Ordering::Greater) => b"greater".as_slice(),
    }
}

/// What is done with two values by the word between them, or with one before the word.
fn done(alloc: Global, a: Seen<'_>, word: &str, b: Seen<'_>) -> Result<Vec<u8>, AllocError> {
    match word {
        "add" => shown(alloc, add(a, b)),
        "sub" => shown(alloc, sub(a, b)),
        "mul" => shown(alloc, mul(a, b)),
        "neg" => shown(alloc, neg(a)),
        "compares" => Vec::from_slice(alloc, name_of(compare(a, b))),
        _ => Vec::from_slice(alloc, name_of(Some(order(a, b)))),
    }
}

/// What is done with a value by a word, and with another value behind it.
fn with_value(alloc: Global, a: &Value, rest: &str) -> Result<Vec<u8>, Fail> {
    let (word, second) = rest.split_once(' ').unwrap_or((rest, "null"));
    let b = value_of(alloc, second)?;
    Ok(done(alloc, a.seen(), word, b.seen())?)
}

/// The text of what a row asks.
fn answer(alloc: Global, asked: &str) -> Result<Vec<u8>, Fail> {
    let (first, rest) = asked.split_once(' ').unwrap_or((asked, ""));
    let a = value_of(alloc, first)?;
    with_value(alloc, &a, rest)
}

#[test]
fn values_are_computed_and_compared(rt: HostRuntime) -> Result<(), Fail> {
    for row in COMPUTED.lines() {
        if let Some((asked, wanted)) = row.split_once(" => ") {
            let found = answer(rt.alloc(), asked)?;
            assert_eq!(rt; found.as_slice(), wanted.as_bytes(), "{asked}");
        }
    }
    Ok(())
}

/// Mantissas and scales, and whether there is a decimal of them.
const MADE_DECIMALS: &[(i64, u8, bool)] = &[
    (1_000_000_000_000_000_000, 0, false),
    (-1_000_000_000_000_000_000, 0, false),
    (0, 10, false),
    (-999_999_999_999_999_999, 9, true),
];

fn is_decimal(mantissa: i64, scale: u8) -> bool {
    match Dec::new(mantissa, scale) {
        Some(made) => made.mantissa() == mantissa && made.scale() == scale,
        None => false,
    }
}

/// Years, months and days, and whether there is a day of them.
const MADE_DAYS: &[(i32, u8, u8, bool)] = &[
    (1900, 2, 29, false),
    (-4, 2, 29, false),
    (10_000, 1, 1, false),
    (2000, 2, 29, true),
];

fn is_day(year: i32, month: u8, day: u8) -> bool {
    match Day::new(year, month, day) {
        Some(made) => made.year() == year && made.month() == month && made.day() == day,
        None => false,
    }
}

#[test]
fn decimals_and_days_are_made_of_their_parts(rt: HostRuntime) {
    for (mantissa, scale, is_one) in MADE_DECIMALS {
        assert_eq!(rt;
            is_decimal(*mantissa, *scale),
            *is_one,
            "{mantissa} {scale}"
        );
    }
    for (year, month, day, is_one) in MADE_DAYS {
        assert_eq!(rt;
            is_day(*year, *month, *day),
            *is_one,
            "{year} {month} {day}"
        );
    }
}

/// Keys, of which the first and the last are one.
const KEYS: &[&str] = &["x", "1.0", "1.00", "x"];

/// The last place of each key.
fn last_places(alloc: Global) -> Result<IndexMap<Value, usize>, Fail> {
    let mut places = IndexMap::new(alloc);
    for (place, word) in KEYS.iter().enumerate() {
        places.insert(value_of(alloc, word)?, place)?;
    }
    Ok(places)
}

#[test]
fn equal_values_are_one_key(rt: HostRuntime) -> Result<(), Fail> {
    let key = value_of(rt.alloc(), "x")?;
    let places = last_places(rt.alloc())?;
    assert_eq!(rt; (places.len(), places.get(&key).copied()), (3, Some(3)));
    Ok(())
}

/// Keys in another order than theirs, each with its place among them.
const SORTED_KEYS: &[(&str, usize)] = &[("1.00", 2), ("null", 0), ("1", 1)];

/// The places of keys by these.
fn sorted_places(alloc: Global) -> Result<BTreeMap<Value, usize>, Fail> {
    let mut sorted = BTreeMap::new(alloc);
    for (word, place) in SORTED_KEYS {
        sorted.insert(value_of(alloc, word)?, *place)?;
    }
    Ok(sorted)
}

#[test]
fn keys_are_sorted(rt: HostRuntime) -> Result<(), Fail> {
    let sorted = sorted_places(rt.alloc())?;
    assert_eq!(rt; sorted.len(), SORTED_KEYS.len());
    for (place, found) in sorted.values().enumerate() {
        assert_eq!(rt; *found, place);
    }
    Ok(())
}

const COPIED: &[&str] = &["", "x", "a\nb", "\u{e9}\u{65e5}"];

#[test]
fn texts_are_copied(rt: HostRuntime) -> Result<(), Fail> {
    let alloc = rt.alloc();
    for given in COPIED {
        let text = Text::of(alloc, given)?;
        let copy = text.copy(alloc)?;
        assert_eq!(rt; (text.as_str(), copy.as_str()), (*given, *given));
    }
    Ok(())
}
