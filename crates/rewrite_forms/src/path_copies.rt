//! Copies of expressions with each path changed.
ghost use Rattle.std.specs.Prelude.{◌≡◌, ◌<◌, ◌∷◌, [], drop, nat_lt, length, IfOk, IsTrue};
ghost use Rattle.std.specs.List.{list_all};
ghost use Rattle.apply_ast.specs.Views.{expr_of};
ghost use Rattle.rewrite_forms.specs.PathChanges as spec;
ghost use Rattle.rewrite_laws.specs.Rewrites as rule;

use apply_ast::{Expr, Name, Path};
use std::alloc::{AllocError, Global};

/// What stands in place of a path.
#[derive(Drop)]
pub(crate) enum Change<'a> {
    /// The path without its first name.
    WithoutFirst,
    /// This name alone.
    Alone(&'a Name),
}

/// The path of one name.
fn alone(alloc: Global, name: &Name) -> Result<Path, AllocError>
    ensures { IfOk result (λ p. p ≡ name.now ∷ []) }
{
    let mut names = Vec::new(alloc);
    names.push(name.copy(alloc)?)?;
    Ok(Path::new(names))
}

/// A path without its first name.
fn behind_first(alloc: Global, path: &Path) -> Result<Path, AllocError>
    requires { 1 < length path.now }
    ensures { IfOk result (λ p. p ≡ drop 1 path.now) }
{
    let mut names = Vec::new(alloc);
    for name in &path.names()[1..] {
        names.push(name.copy(alloc)?)?;
    }
    Ok(Path::new(names))
}

/// What stands in place of a path, where something does.
fn changed(alloc: Global, change: &Change, path: &Path) -> Result<Path, AllocError>
    requires { IsTrue (spec.is_left change.now path.now) }
    ensures { IfOk result (λ p. p ≡ spec.changed change.now path.now) }
{
    match change {
        Change::WithoutFirst => behind_first(alloc, path),
        Change::Alone(name) => alone(alloc, name),
    }
}

/// The expression with each path changed.
fn with_paths(alloc: Global, change: &Change, e: &Expr) -> Result<Expr, AllocError>
    requires { IsTrue (list_all (spec.is_left change.now) (rule.paths (expr_of e.now))) }
    ensures { IfOk result (λ x. expr_of x ≡ rule.with_paths (spec.changed change.now) (expr_of e.now)) }
{
    match e {
        Expr::Path(path) => Ok(Expr::Path(changed(alloc, change, path)?)),
        Expr::Unary(op, a) => Ok(Expr::Unary(*op, Box::new(alloc, with_paths(alloc, change, a)?)?)),
        Expr::Binary(op, a, b) => {
            let a = Box::new(alloc, with_paths(alloc, change, a)?)?;
            let b = with_paths(alloc, change, b)?;
            Ok(Expr::Binary(*op, a, Box::new(alloc, b)?))
        }
        Expr::Call1(f, a) => Ok(Expr::Call1(*f, Box::new(alloc, with_paths(alloc, change, a)?)?)),
        Expr::Call2(f, a, b) => {
            let a = Box::new(alloc, with_paths(alloc, change, a)?)?;
            let b = with_paths(alloc, change, b)?;
            Ok(Expr::Call2(*f, a, Box::new(alloc, b)?))
        }
        other => other.copy(alloc),
    }
}

/// The expression without the first name of each path.
pub fn without_first(alloc: Global, e: &Expr) -> Result<Expr, AllocError>
    requires longer { IsTrue (list_all (λ p. nat_lt 1 (length p)) (rule.paths (expr_of e.now))) }
    ensures value { IfOk result (λ x. expr_of x ≡ rule.with_paths (drop 1) (expr_of e.now)) }
{
    with_paths(alloc, &Change::WithoutFirst, e)
}

/// The expression with a node's key in place of each path.
pub fn on_node(alloc: Global, key: &Name, e: &Expr) -> Result<Expr, AllocError>
    ensures value { IfOk result (λ x. expr_of x ≡ rule.on_node key.now (expr_of e.now)) }
{
    with_paths(alloc, &Change::Alone(key), e)
}
