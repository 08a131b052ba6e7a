//! The paths of expressions.
ghost use Rattle.std.specs.Prelude.{◌≡◌};
ghost use Rattle.apply_ast.specs.Views.{expr_of};
ghost use Rattle.rewrite_laws.specs.Rewrites as rule;

use apply_ast::{Expr, Path};
use context_typing::same_path;

/// Whether each path of an expression is one of these.
pub fn over(paths: &[Path], e: &Expr) -> bool
    ensures value { result ≡ rule.over paths.now (expr_of e.now) }
{
    match e {
        Expr::Path(path) => is_among(paths, path),
        Expr::Unary(_, a) => over(paths, a),
        Expr::Binary(_, a, b) => over(paths, a) && over(paths, b),
        Expr::Call1(_, a) => over(paths, a),
        Expr::Call2(_, a, b) => over(paths, a) && over(paths, b),
        Expr::Null => true,
        Expr::Bool(_) => true,
        Expr::Int(_) => true,
        Expr::Dec(_) => true,
        Expr::Text(_) => true,
        Expr::Day(_) => true,
    }
}

/// Whether a path is one of these.
fn is_among(paths: &[Path], path: &Path) -> bool
    ensures { result ≡ rule.is_among paths.now path.now }
{
    paths.iter().any(|one| same_path(path.names(), one.names()))
}
