//! Expressions (URL Conventions 4.01, section 5.1.1).
ghost use Rattle.std.specs.Prelude.{◌≡◌, ◌≤◌};
ghost use Rattle.apply_ast.specs.Printing.{binop_word, binop_level, fun1_word, fun2_word};

use crate::names::Path;
use edm_values::{Day, Dec, Text};

/// An operator of one operand.
#[derive(Clone, Copy, Debug, PartialEq, Eq, Drop)]
pub enum UnOp {
    Neg,
    Not,
}

/// An operator of two operands.
#[derive(Clone, Copy, Debug, PartialEq, Eq, Drop)]
pub enum BinOp {
    Or,
    And,
    Eq,
    Ne,
    Gt,
    Ge,
    Lt,
    Le,
    Add,
    Sub,
    Mul,
}

impl BinOp {
    /// The operator as it is written.
    pub fn word(self) -> &'static str
        ensures value { result.now ≡ binop_word self }
    {
        match self {
            BinOp::Or => "or",
            BinOp::And => "and",
            BinOp::Eq => "eq",
            BinOp::Ne => "ne",
            BinOp::Gt => "gt",
            BinOp::Ge => "ge",
            BinOp::Lt => "lt",
            BinOp::Le => "le",
            BinOp::Add => "add",
            BinOp::Sub => "sub",
            BinOp::Mul => "mul",
        }
    }

    /// How tightly the operator binds, from 1, the loosest, to 6.
    pub fn level(self) -> u8
        ensures value { result ≡ binop_level self }
        ensures most { result ≤ 6 }
    {
        match self {
            BinOp::Or => 1,
            BinOp::And => 2,
            BinOp::Eq | BinOp::Ne => 3,
            BinOp::Gt | BinOp::Ge | BinOp::Lt | BinOp::Le => 4,
            BinOp::Add | BinOp::Sub => 5,
            BinOp::Mul => 6,
        }
    }
}

/// A function of one argument.
#[derive(Clone, Copy, Debug, PartialEq, Eq, Drop)]
pub enum Fun1 {
    Length,
    Year,
    Month,
    Day,
}

impl Fun1 {
    /// The function as it is written.
    pub fn word(self) -> &'static str
        ensures value { result.now ≡ fun1_word self }
    {
        match self {
            Fun1::Length => "length",
            Fun1::Year => "year",
            Fun1::Month => "month",
            Fun1::Day => "day",
        }
    }
}

/// A function of two texts.
#[derive(Clone, Copy, Debug, PartialEq, Eq, Drop)]
pub enum Fun2 {
    StartsWith,
    EndsWith,
    Contains,
}

impl Fun2 {
    /// The function as it is written.
    pub fn word(self) -> &'static str
        ensures value { result.now ≡ fun2_word self }
    {
        match self {
            Fun2::StartsWith => "startswith",
            Fun2::EndsWith => "endswith",
            Fun2::Contains => "contains",
        }
    }
}

/// An expression. Literals of the grammar have no sign: a number below zero is a `Neg` of one.
#[derive(Drop)]
#[cycle(expr)]
pub enum Expr {
    Null,
    Bool(bool),
    Int(i64),
    Dec(Dec),
    Text(Text),
    Day(Day),
    Path(Path),
    Unary(UnOp, Box<Expr>),
    Binary(BinOp, Box<Expr>, Box<Expr>),
    Call1(Fun1, Box<Expr>),
    Call2(Fun2, Box<Expr>, Box<Expr>),
}
