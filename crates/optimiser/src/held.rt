//! Segments: a step that is no filter, the filters that have gone into it, and those behind it.
ghost use Rattle.std.specs.Prelude.{◌≡◌, ◌==◌, ◌&&◌, ◌||◌, IfOk, IsTrue, length, map, nat_lt, option_map};
ghost use Rattle.std.specs.List.{list_all};
ghost use Rattle.apply_ast.specs.Views.{expr_of};
ghost use Rattle.rewrite_laws.specs.Rewrites as rule;
ghost use Rattle.walk_laws.specs.Walks as spec;
ghost use Rattle.context_typing.specs.ShapeTypes.{has_types};
ghost use Rattle.optimiser.specs.HeldSegments as held;

use apply_ast::{Expr, Name, Named, Path, TopStep};
use context_typing::{Shape, is_sure, is_test};
use edm_model::Model;
use rewrite_forms::{
    all_begin, any_begins, has_path, is_test_on, names_any, on_node, over, without_first,
};
use std::alloc::{AllocError, Global};

/// A filter, and whether it is sure where it was written.
#[derive(Drop)]
pub(crate) struct Test {
    pub(crate) expr: Expr,
    pub(crate) sure: bool,
}

/// Which filters may pass a step.
#[derive(Drop)]
pub(crate) enum Passage<'a> {
    /// None.
    Closed,
    /// Those that name none of these new columns.
    Beside(&'a [Named]),
    /// All.
    Free,
    /// Sure ones over these paths.
    Over(Vec<Path>),
    /// Those with no path under this alias, and where the flag is false only sure ones.
    Outside(&'a Name, bool),
    /// Sure ones.
    Sure,
}

/// Which filters go into a step.
#[derive(Drop)]
pub(crate) enum Entry<'a> {
    /// None.
    Closed,
    /// Those that are a test on each of these shapes.
    Branches(&'a [Shape]),
    /// Those whose paths all lie under this alias.
    Related(&'a Name),
    /// Sure ones over these paths that are a sure test on this shape, with this name in place of each path.
    Nodes(Vec<Path>, Shape, Name),
}

/// The step of a segment.
#[derive(Drop)]
pub(crate) enum Head {
    /// None, at the front.
    Front,
    /// The step at this place of the pipeline, on the shape before it.
    Written(usize, Shape),
    /// A count that stands for two.
    Count(TopStep),
}

/// A step, whether it lets filters pass as far as the step alone decides, which may pass then and which go into it, those
/// that have gone into it, and those behind it.
#[derive(Drop)]
pub(crate) struct Segment<'a> {
    pub(crate) head: Head,
    pub(crate) lets: bool,
    pub(crate) passage: Passage<'a>,
    pub(crate) entry: Entry<'a>,
    pub(crate) entered: Vec<Expr>,
    pub(crate) tests: Vec<Test>,
}

/// Whether all these filters are sure.
fn all_sure(tests: &[Test]) -> bool
    ensures { result ≡ list_all (λ t. t.sure) tests.now }
{
    tests.iter().all(|test| test.sure)
}

/// Whether a filter that is sure or not passes others: there are none, or all of them and it are sure.
fn are_passed(tests: &[Test], sure: bool) -> bool
    ensures { result ≡ (length tests.now == 0 || (list_all (λ t. t.sure) tests.now && sure)) }
{
    tests.is_empty() || (all_sure(tests) && sure)
}

/// Whether a filter passes others.
pub(crate) fn tests_passed(tests: &[Test], test: &Test) -> bool
    ensures { result ≡ spec.tests_passed (map held.test_of tests.now) (held.test_of test.now) }
{
    are_passed(tests, test.sure)
}

/// Whether a filter that is sure or not may pass a step that lets filters pass.
pub(crate) fn passes_as(passage: &Passage, e: &Expr, sure: bool) -> bool
    ensures { result ≡ held.passes passage.now (record { expr = expr_of e.now; sure = sure }) }
{
    match passage {
        Passage::Closed => false,
        Passage::Beside(made) => !names_any(e, made),
        Passage::Free => true,
        Passage::Over(paths) => over(paths.as_slice(), e) && sure,
        Passage::Outside(alias, unsure) => !any_begins(alias, e) && (*unsure || sure),
        Passage::Sure => sure,
    }
}

/// Whether a filter may pass a step that lets filters pass.
pub(crate) fn passes(passage: &Passage, test: &Test) -> bool
    ensures { result ≡ held.passes passage.now (held.test_of test.now) }
{
    passes_as(passage, &test.expr, test.sure)
}

/// Whether a path has more names than one.
fn is_longer(path: &Path) -> bool
    ensures { result ≡ nat_lt 1 (length path.now) }
{
    path.names().len() > 1
}

/// Whether each path of an expression has more names than one.
fn each_longer(e: &Expr) -> bool
    ensures { result ≡ list_all (λ p. nat_lt 1 (length p)) (rule.paths (expr_of e.now)) }
{
    match e {
        Expr::Path(path) => is_longer(path),
        Expr::Unary(_, a) => each_longer(a),
        Expr::Binary(_, a, b) => each_longer(a) && each_longer(b),
        Expr::Call1(_, a) => each_longer(a),
        Expr::Call2(_, a, b) => each_longer(a) && each_longer(b),
        Expr::Null => true,
        Expr::Bool(_) => true,
        Expr::Int(_) => true,
        Expr::Dec(_) => true,
        Expr::Text(_) => true,
        Expr::Day(_) => true,
    }
}

/// The filter as it goes into branches, if it does.
fn into_branches(
    alloc: Global,
    m: &Model,
    shapes: &[Shape],
    e: &Expr,
) -> Result<Option<Expr>, AllocError>
    requires { IsTrue (list_all (has_types m.now) shapes.now) }
    ensures { IfOk result (λ o. option_map expr_of o ≡ held.into_branches m.now shapes.now (expr_of e.now)) }
{
    if is_test_on(m, shapes, e) {
        Ok(Some(e.copy(alloc)?))
    } else {
        Ok(None)
    }
}

/// The filter as it goes into a join, if it does.
fn into_related(alloc: Global, alias: &Name, e: &Expr) -> Result<Option<Expr>, AllocError>
    ensures { IfOk result (λ o. option_map expr_of o ≡ held.into_related alias.now (expr_of e.now)) }
{
    if all_begin(alias, e) && each_longer(e) {
        Ok(Some(without_first(alloc, e)?))
    } else {
        Ok(None)
    }
}

/// The filter as it goes to the nodes of a grouping, if it does.
fn into_nodes(
    alloc: Global,
    m: &Model,
    paths: &[Path],
    shape: &Shape,
    key: &Name,
    e: &Expr,
) -> Result<Option<Expr>, AllocError>
    requires { IsTrue (has_types m.now shape.now) }
    ensures { IfOk result (λ o. option_map expr_of o ≡ held.into_nodes m.now paths.now shape.now key.now (expr_of e.now)) }
{
    if !has_path(e) || !over(paths, e) {
        return Ok(None);
    }
    let there = on_node(alloc, key, e)?;
    if is_test(m, shape, &there) && is_sure(m, shape, &there) {
        Ok(Some(there))
    } else {
        Ok(None)
    }
}

/// As what a filter goes into a step, if it does.
pub(crate) fn enters(
    alloc: Global,
    m: &Model,
    entry: &Entry,
    test: &Test,
) -> Result<Option<Expr>, AllocError>
    requires { IsTrue (held.is_right m.now entry.now) }
    ensures { IfOk result (λ o. option_map expr_of o ≡ held.enters m.now entry.now (held.test_of test.now)) }
{
    match entry {
        Entry::Closed => Ok(None),
        Entry::Branches(shapes) => into_branches(alloc, m, shapes, &test.expr),
        Entry::Related(alias) => into_related(alloc, alias, &test.expr),
        Entry::Nodes(paths, shape, key) => {
            if !test.sure {
                return Ok(None);
            }
            into_nodes(alloc, m, paths.as_slice(), shape, key, &test.expr)
        }
    }
}
