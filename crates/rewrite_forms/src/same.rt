//! Equality of expressions.
ghost use Rattle.std.specs.Prelude.{◌≡◌};
ghost use Rattle.apply_ast.specs.Views.{expr_of};
ghost use Rattle.rewrite_laws.specs.TreeEquality as spec;

use apply_ast::{BinOp, Expr, Fun1, Fun2, UnOp};
use context_typing::same_path;

/// Whether two expressions are equal: the same operators, functions, literals and paths in the same places.
pub fn same_expr(a: &Expr, b: &Expr) -> bool
    ensures value { result ≡ spec.expr_same (expr_of a.now) (expr_of b.now) }
{
    match a {
        Expr::Null => match b {
            Expr::Null => true,
            _ => false,
        },
        Expr::Bool(x) => match b {
            Expr::Bool(y) => *x == *y,
            _ => false,
        },
        Expr::Int(x) => match b {
            Expr::Int(y) => *x == *y,
            _ => false,
        },
        Expr::Dec(x) => match b {
            Expr::Dec(y) => x.mantissa() == y.mantissa() && x.scale() == y.scale(),
            _ => false,
        },
        Expr::Text(x) => match b {
            Expr::Text(y) => x.as_str() == y.as_str(),
            _ => false,
        },
        Expr::Day(x) => match b {
            Expr::Day(y) => x.year() == y.year() && x.month() == y.month() && x.day() == y.day(),
            _ => false,
        },
        Expr::Path(x) => match b {
            Expr::Path(y) => same_path(x.names(), y.names()),
            _ => false,
        },
        Expr::Unary(o, x) => match b {
            Expr::Unary(p, y) => unop_number(*o) == unop_number(*p) && same_expr(x, y),
            _ => false,
        },
        Expr::Binary(o, x, v) => match b {
            Expr::Binary(p, y, w) => binop_number(*o) == binop_number(*p)
                && same_expr(x, y)
                && same_expr(v, w),
            _ => false,
        },
        Expr::Call1(f, x) => match b {
            Expr::Call1(g, y) => fun1_number(*f) == fun1_number(*g) && same_expr(x, y),
            _ => false,
        },
        Expr::Call2(f, x, v) => match b {
            Expr::Call2(g, y, w) => fun2_number(*f) == fun2_number(*g)
                && same_expr(x, y)
                && same_expr(v, w),
            _ => false,
        },
    }
}

/// The number of an operator of one operand.
fn unop_number(op: UnOp) -> u8
    ensures { result ≡ spec.unop_number op }
{
    match op {
        UnOp::Neg => 0,
        UnOp::Not => 1,
    }
}

/// The number of an operator of two operands.
fn binop_number(op: BinOp) -> u8
    ensures { result ≡ spec.binop_number op }
{
    match op {
        BinOp::Or => 0,
        BinOp::And => 1,
        BinOp::Eq => 2,
        BinOp::Ne => 3,
        BinOp::Gt => 4,
        BinOp::Ge => 5,
        BinOp::Lt => 6,
        BinOp::Le => 7,
        BinOp::Add => 8,
        BinOp::Sub => 9,
        BinOp::Mul => 10,
    }
}

/// The number of a function of one argument.
fn fun1_number(f: Fun1) -> u8
    ensures { result ≡ spec.fun1_number f }
{
    match f {
        Fun1::Length => 0,
        Fun1::Year => 1,
        Fun1::Month => 2,
        Fun1::Day => 3,
    }
}

/// The number of a function of two texts.
fn fun2_number(f: Fun2) -> u8
    ensures { result ≡ spec.fun2_number f }
{
    match f {
        Fun2::StartsWith => 0,
        Fun2::EndsWith => 1,
        Fun2::Contains => 2,
    }
}
