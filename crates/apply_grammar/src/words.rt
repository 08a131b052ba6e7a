//! The words of operators, functions, methods and steps.
ghost use Rattle.std.specs.Prelude.{◌≡◌};
ghost use Rattle.apply_grammar.specs.Reading as reading;
ghost use Rattle.apply_grammar.specs.PipeReading as pipes;

use crate::bytes::same;
use apply_ast::{BinOp, Fun1, Fun2, Method};

/// What a selection reaches for.
#[derive(Clone, Copy, Drop)]
pub enum LimitKind {
    Count,
    Sum,
    Percent,
}

/// The form of a step that has parentheses. A join is outer where the flag is true, a climb goes up, and a selection
/// is from the bottom.
#[derive(Clone, Copy, Drop)]
pub enum StepWord {
    Filter,
    Compute,
    OrderBy,
    Skip,
    Top,
    Aggregate,
    GroupBy,
    Concat,
    Join(bool),
    Climb(bool),
    Traverse,
    Select(bool, LimitKind),
}

/// The operator of this word.
#[tactic(auto, unfolding(crate::specs::Reading::binop_of))]
pub(crate) fn binop_of(word: &[u8]) -> Option<BinOp>
    ensures { result ≡ reading.binop_of word.now }
{
    if same(word, b"or") {
        Some(BinOp::Or)
    } else if same(word, b"and") {
        Some(BinOp::And)
    } else if same(word, b"eq") {
        Some(BinOp::Eq)
    } else if same(word, b"ne") {
        Some(BinOp::Ne)
    } else if same(word, b"gt") {
        Some(BinOp::Gt)
    } else if same(word, b"ge") {
        Some(BinOp::Ge)
    } else if same(word, b"lt") {
        Some(BinOp::Lt)
    } else if same(word, b"le") {
        Some(BinOp::Le)
    } else if same(word, b"add") {
        Some(BinOp::Add)
    } else if same(word, b"sub") {
        Some(BinOp::Sub)
    } else if same(word, b"mul") {
        Some(BinOp::Mul)
    } else {
        None
    }
}

/// The function of one argument of this word.
#[tactic(auto, unfolding(crate::specs::Reading::fun1_of))]
pub(crate) fn fun1_of(word: &[u8]) -> Option<Fun1>
    ensures { result ≡ reading.fun1_of word.now }
{
    if same(word, b"length") {
        Some(Fun1::Length)
    } else if same(word, b"year") {
        Some(Fun1::Year)
    } else if same(word, b"month") {
        Some(Fun1::Month)
    } else if same(word, b"day") {
        Some(Fun1::Day)
    } else {
        None
    }
}

/// The function of two arguments of this word.
#[tactic(auto, unfolding(crate::specs::Reading::fun2_of))]
pub(crate) fn fun2_of(word: &[u8]) -> Option<Fun2>
    ensures { result ≡ reading.fun2_of word.now }
{
    if same(word, b"startswith") {
        Some(Fun2::StartsWith)
    } else if same(word, b"endswith") {
        Some(Fun2::EndsWith)
    } else if same(word, b"contains") {
        Some(Fun2::Contains)
    } else {
        None
    }
}

/// The aggregation method of this word.
#[tactic(auto, unfolding(crate::specs::PipeReading::method_of))]
pub(crate) fn method_of(word: &[u8]) -> Option<Method>
    ensures { result ≡ pipes.method_of word.now }
{
    if same(word, b"sum") {
        Some(Method::Sum)
    } else if same(word, b"min") {
        Some(Method::Min)
    } else if same(word, b"max") {
        Some(Method::Max)
    } else if same(word, b"countdistinct") {
        Some(Method::CountDistinct)
    } else {
        None
    }
}

/// The form of step that this word begins.
#[tactic(auto, unfolding(crate::specs::PipeReading::step_word_of))]
pub(crate) fn step_word_of(word: &[u8]) -> Option<StepWord>
    ensures { result ≡ pipes.step_word_of word.now }
{
    if same(word, b"filter") {
        Some(StepWord::Filter)
    } else if same(word, b"compute") {
        Some(StepWord::Compute)
    } else if same(word, b"orderby") {
        Some(StepWord::OrderBy)
    } else if same(word, b"skip") {
        Some(StepWord::Skip)
    } else if same(word, b"top") {
        Some(StepWord::Top)
    } else if same(word, b"aggregate") {
        Some(StepWord::Aggregate)
    } else if same(word, b"groupby") {
        Some(StepWord::GroupBy)
    } else if same(word, b"concat") {
        Some(StepWord::Concat)
    } else if same(word, b"join") {
        Some(StepWord::Join(false))
    } else if same(word, b"outerjoin") {
        Some(StepWord::Join(true))
    } else if same(word, b"ancestors") {
        Some(StepWord::Climb(true))
    } else if same(word, b"descendants") {
        Some(StepWord::Climb(false))
    } else if same(word, b"traverse") {
        Some(StepWord::Traverse)
    } else if same(word, b"topcount") {
        Some(StepWord::Select(false, LimitKind::Count))
    } else if same(word, b"bottomcount") {
        Some(StepWord::Select(true, LimitKind::Count))
    } else if same(word, b"topsum") {
        Some(StepWord::Select(false, LimitKind::Sum))
    } else if same(word, b"bottomsum") {
        Some(StepWord::Select(true, LimitKind::Sum))
    } else if same(word, b"toppercent") {
        Some(StepWord::Select(false, LimitKind::Percent))
    } else if same(word, b"bottompercent") {
        Some(StepWord::Select(true, LimitKind::Percent))
    } else {
        None
    }
}
