//! The plain texts of values.
ghost use Rattle.std.specs.Prelude.{◌≡◌, ◌<◌, ◌≤◌, ◌^◌, ◌+◌, ◌++◌, IsFalse, OnOk, OnErr, drop, replicate, int_lt, pos, nat_abs};
ghost use Rattle.std.specs.List.{flat_map};
ghost use Rattle.std.specs.Fmt.{sign_text, signed_decimal};
ghost use Rattle.edm_values.specs.Literals.{decimal_text, day_text, digits_max, padded_decimal, plain_text, with_point};
ghost use Rattle.edm_values.specs.Values.{is_beyond, is_null, seen_value};

use crate::{Day, Dec, Seen};
use itoa::write_digits;
use std::alloc::AllocError;

/// The digits of the greatest number of 64 bits.
const DIGITS_MAX: usize = 20;

/// Appends the value's plain text. A refusal is want of memory.
pub fn print_value(v: Seen<'_>, out: &mut Vec<u8>) -> Result<(), AllocError>
    requires null { IsFalse (is_null (seen_value v)) }
    requires beyond { IsFalse (is_beyond (seen_value v)) }
    ensures ok { OnOk result (out.new.items ≡ out.old.items ++ plain_text (seen_value v.entry)) }
    ensures err { OnErr result (out.new.items ≡ out.old.items) }
{
    match v {
        Seen::Bool(true) => out.extend_from_slice(b"true"),
        Seen::Bool(false) => out.extend_from_slice(b"false"),
        Seen::Int(n) => print_integer(n, out),
        Seen::Dec(d) => print_decimal(d, out),
        Seen::Text(t) => out.extend_from_slice(t.as_bytes()),
        Seen::Day(d) => print_day(d, out),
        Seen::Null | Seen::Beyond => unreachable!(),
    }
}

fn print_integer(n: i64, out: &mut Vec<u8>) -> Result<(), AllocError>
    ensures ok { OnOk result (out.new.items ≡ out.old.items ++ signed_decimal n) }
    ensures err { OnErr result (out.new.items ≡ out.old.items) }
{
    let mut buffer = itoa::Buffer::new();
    out.extend_from_slice(buffer.format(n).as_bytes())
}

fn print_decimal(d: Dec, out: &mut Vec<u8>) -> Result<(), AllocError>
    ensures ok { OnOk result (out.new.items ≡ out.old.items ++ decimal_text d.mantissa d.scale) }
    ensures err { OnErr result (out.new.items ≡ out.old.items) }
{
    let scale = usize::from(d.scale);
    let mut room = [b'0'; DIGITS_MAX];
    let start = write_padded(d.mantissa.unsigned_abs(), scale + 1, &mut room);
    let digits = &room[start..];
    let sign = sign_of(d.mantissa);
    if scale == 0 {
        return append(&[sign, digits], out);
    }
    let place = digits.len() - scale;
    append(&[sign, &digits[..place], b".", &digits[place..]], out)
}

fn sign_of(n: i64) -> &'static [u8]
    ensures { result.now ≡ sign_text (int_lt n (pos 0)) }
{
    if n < 0 { b"-" } else { b"" }
}

fn print_day(d: Day, out: &mut Vec<u8>) -> Result<(), AllocError>
    ensures ok { OnOk result (out.new.items ≡ out.old.items ++ day_text d.year d.month d.day) }
    ensures err { OnErr result (out.new.items ≡ out.old.items) }
{
    let mut year = [b'0'; DIGITS_MAX];
    let year_start = write_padded(u64::from(d.year), 4, &mut year);
    let mut month = [b'0'; DIGITS_MAX];
    let month_start = write_padded(u64::from(d.month), 2, &mut month);
    let mut day = [b'0'; DIGITS_MAX];
    let day_start = write_padded(u64::from(d.day), 2, &mut day);
    append(
        &[
            &year[year_start..],
            b"-",
            &month[month_start..],
            b"-",
            &day[day_start..],
        ],
        out,
    )
}

/// Writes the digits at the end of a row of zeros, and says where they begin with zeros up to the width.
fn write_padded(number: u64, width: usize, room: &mut [u8; DIGITS_MAX]) -> usize
    requires zeros { room.old ≡ replicate digits_max 48 }
    requires width { width ≤ digits_max }
    ensures start { result + width ≤ digits_max }
    ensures digits { drop result room.new ≡ padded_decimal width number }
{
    let start = write_digits(number, room, DIGITS_MAX);
    start.min(DIGITS_MAX - width)
}

/// Appends the pieces one after another, or nothing.
fn append(pieces: &[&[u8]], out: &mut Vec<u8>) -> Result<(), AllocError>
    ensures ok { OnOk result (out.new.items ≡ out.old.items ++ flat_map (λ piece. piece.now) pieces.now) }
    ensures err { OnErr result (out.new.items ≡ out.old.items) }
{
    let before = out.len();
    for piece in pieces {
        if let Err(error) = out.extend_from_slice(piece) {
            out.truncate(before);
            return Err(error);
        }
    }
    Ok(())
}
