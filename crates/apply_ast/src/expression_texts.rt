//! The printed texts of expressions. Each function appends one to a text.
ghost use Rattle.std.specs.Prelude.{◌≡◌, ◌++◌, IsFalse, OnOk, string_bytes, decimal};
ghost use Rattle.edm_values.specs.Literals.{plain_text};
ghost use Rattle.edm_values.specs.Values.{is_beyond, is_null, is_text, seen_value};
ghost use Rattle.apply_ast.specs.Views.{expr_of};
ghost use Rattle.apply_ast.specs.Printing as spec;
ghost use Rattle.apply_ast.specs.Printing.{byte_before, print_path, print_expr, doubled, quoted, enclosed_if, sign_word};

use crate::expressions::{Expr, UnOp};
use crate::names::Path;
use edm_values::{Seen, print_value};
use std::alloc::AllocError;

/// Appends the text.
pub(crate) fn put(out: &mut String, text: &str) -> Result<(), AllocError>
    ensures { OnOk result (string_bytes out.new ≡ string_bytes out.old ++ text.now) }
{
    out.push_str(text)
}

/// Appends the number in decimal digits.
pub(crate) fn put_number(out: &mut String, n: u64) -> Result<(), AllocError>
    ensures { OnOk result (string_bytes out.new ≡ string_bytes out.old ++ decimal n) }
{
    write!(out, "{n}")
}

/// Appends the plain text of a Boolean, a number or a day.
pub(crate) fn put_value(out: &mut String, v: Seen<'_>) -> Result<(), AllocError>
    requires null { IsFalse (is_null (seen_value v)) }
    requires beyond { IsFalse (is_beyond (seen_value v)) }
    requires text { IsFalse (is_text (seen_value v)) }
    ensures { OnOk result (string_bytes out.new ≡ string_bytes out.old ++ plain_text (seen_value v.entry)) }
{
    let mut bytes = Vec::new(*out.allocator());
    print_value(v, &mut bytes)?;
    match str::from_utf8(&bytes) {
        Ok(text) => put(out, text),
        Err(_) => unreachable!(),
    }
}

/// Appends the slash before the text at this place of a list.
pub(crate) fn put_slash(out: &mut String, place: usize) -> Result<(), AllocError>
    ensures { OnOk result (string_bytes out.new ≡ string_bytes out.old ++ byte_before 47 place) }
{
    if place > 0 { put(out, "/") } else { Ok(()) }
}

/// Appends the comma before the text at this place of a list.
pub(crate) fn put_comma(out: &mut String, place: usize) -> Result<(), AllocError>
    ensures { OnOk result (string_bytes out.new ≡ string_bytes out.old ++ byte_before 44 place) }
{
    if place > 0 { put(out, ",") } else { Ok(()) }
}

/// Appends the names with a slash between each two.
pub(crate) fn put_path(out: &mut String, path: &Path) -> Result<(), AllocError>
    ensures { OnOk result (string_bytes out.new ≡ string_bytes out.old ++ print_path path.now) }
{
    for (i, name) in path.names().iter().enumerate() {
        put_slash(out, i)?;
        put(out, name.text())?;
    }
    Ok(())
}

/// Appends the text with each quote doubled.
fn put_doubled(out: &mut String, text: &str) -> Result<(), AllocError>
    ensures { OnOk result (string_bytes out.new ≡ string_bytes out.old ++ doubled text.now) }
{
    let mut rest = text;
    while let Some((before, behind)) = rest.split_once('\'') {
        put(out, before)?;
        put(out, "''")?;
        rest = behind;
    }
    put(out, rest)
}

fn put_quoted(out: &mut String, text: &str) -> Result<(), AllocError>
    ensures { OnOk result (string_bytes out.new ≡ string_bytes out.old ++ quoted text.now) }
{
    put(out, "'")?;
    put_doubled(out, text)?;
    put(out, "'")
}

fn put_sign(out: &mut String, op: UnOp) -> Result<(), AllocError>
    ensures { OnOk result (string_bytes out.new ≡ string_bytes out.old ++ sign_word op) }
{
    match op {
        UnOp::Neg => put(out, "-"),
        UnOp::Not => put(out, "not "),
    }
}

/// How tightly the expression binds, from 1, the loosest, to 8.
fn level(e: &Expr) -> u8
    ensures { result ≡ spec.level (expr_of e.now) }
{
    match e {
        Expr::Binary(op, _, _) => op.level(),
        Expr::Unary(_, _) => 7,
        _ => 8,
    }
}

/// Appends the expression.
#[cycle(put_expr)]
pub(crate) fn put_expr(out: &mut String, e: &Expr) -> Result<(), AllocError>
    ensures { OnOk result (string_bytes out.new ≡ string_bytes out.old ++ print_expr (expr_of e.now)) }
{
    match e {
        Expr::Null => put(out, "null"),
        Expr::Bool(b) => put_value(out, Seen::Bool(*b)),
        Expr::Int(n) => put_value(out, Seen::Int(*n)),
        Expr::Dec(d) => put_value(out, Seen::Dec(*d)),
        Expr::Text(t) => put_quoted(out, t.as_str()),
        Expr::Day(d) => put_value(out, Seen::Day(*d)),
        Expr::Path(p) => put_path(out, p),
        Expr::Unary(op, a) => {
            put_sign(out, *op)?;
            put_operand(out, a, level(a) < 7)
        }
        Expr::Binary(op, a, b) => {
            put_operand(out, a, level(a) < op.level())?;
            put(out, " ")?;
            put(out, op.word())?;
            put(out, " ")?;
            put_operand(out, b, level(b) <= op.level())
        }
        Expr::Call1(f, a) => {
            put(out, f.word())?;
            put(out, "(")?;
            put_expr(out, a)?;
            put(out, ")")
        }
        Expr::Call2(f, a, b) => {
            put(out, f.word())?;
            put(out, "(")?;
            put_expr(out, a)?;
            put(out, ",")?;
            put_expr(out, b)?;
            put(out, ")")
        }
    }
}

/// Appends the operand, in parentheses where they are asked for.
#[cycle(put_expr)]
fn put_operand(out: &mut String, e: &Expr, enclosed: bool) -> Result<(), AllocError>
    ensures { OnOk result (string_bytes out.new ≡ string_bytes out.old ++ enclosed_if enclosed (print_expr (expr_of e.now))) }
{
    if enclosed {
        put(out, "(")?;
        put_expr(out, e)?;
        put(out, ")")
    } else {
        put_expr(out, e)
    }
}
