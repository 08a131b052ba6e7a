//! Expressions.
//!
//! `depth` is the number of parentheses that may still be opened, and `ops` that of the operators and calls that may still
//! come. A reader gives the tree, the operators and calls that are left, and what follows.
ghost use Rattle.std.specs.Prelude.{◌≡◌, ℕ, ◌+◌, ◌<◌, ◌≤◌, length, option_map, IfOk, List, Option, Some};
ghost use Rattle.apply_ast.specs.Trees as trees;
ghost use Rattle.apply_ast.specs.Grammar.{expr_text};
ghost use Rattle.apply_ast.specs.Views.{expr_of};
ghost use Rattle.apply_grammar.specs.Gives.{Gives};
ghost use Rattle.apply_grammar.specs.Limits as limits;
ghost use Rattle.apply_grammar.specs.Limits.{served};
ghost use Rattle.apply_grammar.specs.Reading as reading;

use crate::bytes::{after, blanks_at, close_at, comma_at, open_at, same, skip_blanks, word_run};
use crate::literals::{digits_at, read_number, read_text};
use crate::paths::path_at;
use crate::refusals::ExprRefused;
use crate::words::{binop_of, fun1_of, fun2_of};
use apply_ast::{BinOp, Expr, Fun1, Fun2, UnOp};
use std::alloc::Global;

/// The greatest number of open parentheses at one place of a text.
pub const OPEN_MAX: u8 = 32;

/// The greatest number of operators and calls in one expression.
pub const OPERATIONS_MAX: u16 = 512;

#[tactic(auto, unfolding(crate::specs::Reading::op_at))]
fn op_at(level: u8, text: &[u8]) -> Option<(BinOp, &[u8])>
    ensures { option_map (λ x. (x.0, x.1.now)) result ≡ reading.op_at level text.now }
{
    let (word, rest) = word_run(blanks_at(text)?);
    let op = binop_of(word)?;
    let rest = blanks_at(rest)?;
    if level <= op.level() {
        Some((op, rest))
    } else {
        None
    }
}

#[tactic(auto, unfolding(crate::specs::Reading::not_at))]
fn not_at(text: &[u8]) -> Option<(UnOp, &[u8])>
    ensures { option_map (λ x. (x.0, x.1.now)) result ≡ reading.not_at text.now }
{
    let (word, rest) = word_run(text);
    if same(word, b"not") {
        Some((UnOp::Not, blanks_at(rest)?))
    } else {
        None
    }
}

#[tactic(auto, unfolding(crate::specs::Reading::sign_at))]
fn sign_at(text: &[u8]) -> Option<(UnOp, &[u8])>
    ensures { option_map (λ x. (x.0, x.1.now)) result ≡ reading.sign_at text.now }
{
    match after(text, b'-') {
        Some(rest) => Some((UnOp::Neg, skip_blanks(rest))),
        None => not_at(text),
    }
}

#[tactic(auto, unfolding(crate::specs::Reading::word_at))]
fn read_word(alloc: Global, text: &[u8]) -> Result<(Expr, &[u8]), ExprRefused>
    ensures { Gives (λ x. (expr_of x.0, x.1.now)) result (reading.word_at text.now) }
{
    let (word, rest) = word_run(text);
    if same(word, b"null") {
        Ok((Expr::Null, rest))
    } else if same(word, b"true") {
        Ok((Expr::Bool(true), rest))
    } else if same(word, b"false") {
        Ok((Expr::Bool(false), rest))
    } else {
        let (path, rest) = path_at(alloc, text)?;
        Ok((Expr::Path(path), rest))
    }
}

#[tactic(auto, unfolding(crate::specs::Reading::atom_at))]
fn read_atom(alloc: Global, text: &[u8]) -> Result<(Expr, &[u8]), ExprRefused>
    ensures { Gives (λ x. (expr_of x.0, x.1.now)) result (reading.atom_at served text.now) }
{
    match after(text, b'\'') {
        Some(behind) => read_text(alloc, behind),
        None => match digits_at(text) {
            Some((digits, rest)) => read_number(digits, rest),
            None => read_word(alloc, text),
        },
    }
}

// An expression behind an opening parenthesis and its blanks, and the closing one.
#[cycle(expr)]
#[tactic(auto, unfolding(crate::specs::Reading::paren_at))]
fn read_paren(
    alloc: Global,
    depth: u8,
    ops: u16,
    text: &[u8],
) -> Result<(Expr, u16, &[u8]), ExprRefused>
    ensures exact { Gives (λ x. (expr_of x.0, x.1, x.2.now)) result (reading.paren_at (reading.parens served depth) ops text.now) }
    ensures less { IfOk result (λ x. x.1 ≤ ops) }
{
    let (e, ops, rest) = read_inner(alloc, depth, ops, text)?;
    match close_at(rest) {
        Some(rest) => Ok((e, ops, rest)),
        None => Err(ExprRefused::Syntax),
    }
}

#[cycle(expr)]
fn read_inner(
    alloc: Global,
    depth: u8,
    ops: u16,
    text: &[u8],
) -> Result<(Expr, u16, &[u8]), ExprRefused>
    ensures exact { Gives (λ x. (expr_of x.0, x.1, x.2.now)) result (reading.parens served depth ops text.now) }
    ensures less { IfOk result (λ x. x.1 ≤ ops) }
{
    if depth == 0 {
        return Err(ExprRefused::Syntax);
    }
    read_level(alloc, depth - 1, 1, ops, text)
}

#[cycle(expr)]
#[tactic(auto, unfolding(crate::specs::Reading::call1_at))]
fn read_call1(
    alloc: Global,
    depth: u8,
    f: Fun1,
    ops: u16,
    text: &[u8],
) -> Result<(Expr, u16, &[u8]), ExprRefused>
    ensures exact { Gives (λ x. (expr_of x.0, x.1, x.2.now)) result (reading.call1_at (reading.parens served depth) f ops text.now) }
    ensures less { IfOk result (λ x. x.1 ≤ ops) }
{
    let (e, ops, rest) = read_paren(alloc, depth, ops, text)?;
    Ok((Expr::Call1(f, Box::new(alloc, e)?), ops, rest))
}

#[cycle(expr)]
#[tactic(auto, unfolding(crate::specs::Reading::call2_at))]
fn read_call2(
    alloc: Global,
    depth: u8,
    f: Fun2,
    ops: u16,
    text: &[u8],
) -> Result<(Expr, u16, &[u8]), ExprRefused>
    ensures exact { Gives (λ x. (expr_of x.0, x.1, x.2.now)) result (reading.call2_at (reading.parens served depth) f ops text.now) }
    ensures less { IfOk result (λ x. x.1 ≤ ops) }
{
    let (a, ops, rest) = read_inner(alloc, depth, ops, text)?;
    match comma_at(rest) {
        Some(rest) => {
            let (b, ops, rest) = read_paren(alloc, depth, ops, rest)?;
            Ok((
                Expr::Call2(f, Box::new(alloc, a)?, Box::new(alloc, b)?),
                ops,
                rest,
            ))
        }
        None => Err(ExprRefused::Syntax),
    }
}

#[cycle(expr)]
#[tactic(auto, unfolding(crate::specs::Reading::call_at))]
fn read_call<'a>(
    alloc: Global,
    depth: u8,
    word: &[u8],
    ops: u16,
    text: &'a [u8],
) -> Result<(Expr, u16, &'a [u8]), ExprRefused>
    ensures exact { Gives (λ x. (expr_of x.0, x.1, x.2.now)) result (reading.call_at (reading.parens served depth) word.now ops text.now) }
    ensures less { IfOk result (λ x. x.1 ≤ ops) }
{
    match fun1_of(word) {
        Some(f) => read_call1(alloc, depth, f, ops, text),
        None => match fun2_of(word) {
            Some(f) => read_call2(alloc, depth, f, ops, text),
            None => Err(ExprRefused::Syntax),
        },
    }
}

#[cycle(expr)]
#[tactic(auto, unfolding(crate::specs::Reading::primary))]
fn read_primary(
    alloc: Global,
    depth: u8,
    ops: u16,
    text: &[u8],
) -> Result<(Expr, u16, &[u8]), ExprRefused>
    ensures exact { Gives (λ x. (expr_of x.0, x.1, x.2.now)) result (reading.primary served (reading.parens served depth) ops text.now) }
    ensures less { IfOk result (λ x. x.1 ≤ ops) }
{
    match open_at(text) {
        Some(behind) => read_paren(alloc, depth, ops, behind),
        None => {
            let (word, rest) = word_run(text);
            match open_at(rest) {
                Some(behind) => {
                    if ops == 0 {
                        return Err(ExprRefused::Syntax);
                    }
                    read_call(alloc, depth, word, ops - 1, behind)
                }
                None => {
                    let (e, rest) = read_atom(alloc, text)?;
                    Ok((e, ops, rest))
                }
            }
        }
    }
}

#[cycle(expr)]
fn read_signed(
    alloc: Global,
    depth: u8,
    ops: u16,
    text: &[u8],
) -> Result<(Expr, u16, &[u8]), ExprRefused>
    ensures exact { Gives (λ x. (expr_of x.0, x.1, x.2.now)) result (reading.signed (reading.primary served (reading.parens served depth)) ops text.now) }
    ensures less { IfOk result (λ x. x.1 ≤ ops) }
{
    match sign_at(text) {
        Some((op, operand)) => {
            if ops == 0 {
                return Err(ExprRefused::Syntax);
            }
            let (e, ops, rest) = read_signed(alloc, depth, ops - 1, operand)?;
            Ok((Expr::Unary(op, Box::new(alloc, e)?), ops, rest))
        }
        None => read_primary(alloc, depth, ops, text),
    }
}

#[cycle(expr)]
pub(crate) fn read_level(
    alloc: Global,
    depth: u8,
    level: u8,
    ops: u16,
    text: &[u8],
) -> Result<(Expr, u16, &[u8]), ExprRefused>
    requires { level ≤ 7 }
    ensures exact { Gives (λ x. (expr_of x.0, x.1, x.2.now)) result (reading.climb (reading.primary served (reading.parens served depth)) level ops text.now) }
    ensures less { IfOk result (λ x. x.1 ≤ ops) }
{
    let (mut left, mut ops, mut rest) = read_signed(alloc, depth, ops, text)?;
    while let Some((op, behind)) = op_at(level, rest) {
        if ops == 0 {
            return Err(ExprRefused::Syntax);
        }
        let (right, less, next) = read_level(alloc, depth, op.level() + 1, ops - 1, behind)?;
        left = Expr::Binary(op, Box::new(alloc, left)?, Box::new(alloc, right)?);
        ops = less;
        rest = next;
    }
    Ok((left, ops, rest))
}

fn whole_expr(alloc: Global, text: &[u8]) -> Result<Expr, ExprRefused>
    ensures { Gives expr_of result (reading.whole_expr served limits.most_open limits.most_operations text.now) }
{
    let (e, _, rest) = read_level(alloc, OPEN_MAX, 1, OPERATIONS_MAX, text)?;
    if rest.is_empty() {
        Ok(e)
    } else {
        Err(ExprRefused::Syntax)
    }
}

/// The expression of the text.
pub fn read_expr(alloc: Global, text: &str) -> Result<Expr, ExprRefused>
    // What is read is the text's expression.
    ensures found { IfOk result (λ e. limits.ExprTextIn text.now (expr_of e)) }
    // A text of an expression is read, unless memory runs out.
    ensures only { (e : trees.Expr) → limits.ExprTextIn text.now e → Gives expr_of result (Some e) }
{
    whole_expr(alloc, text.as_bytes())
}

/// The law that a text has at most one expression: of any bytes, and without a limit. It does nothing when it runs.
pub fn one_expression()
    ensures one { (t : List ℕ) (a b : trees.Expr) → expr_text a t → expr_text b t → a ≡ b }
{}
