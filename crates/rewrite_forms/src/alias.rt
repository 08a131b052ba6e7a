//! Which paths of an expression begin with an alias.
ghost use Rattle.std.specs.Prelude.{◌≡◌, ◌&&◌};
ghost use Rattle.std.specs.List.{list_all, list_any};
ghost use Rattle.edm_values.specs.Lists.{is_nonempty};
ghost use Rattle.apply_ast.specs.Views.{expr_of};
ghost use Rattle.context_typing.specs.Paths as path;
ghost use Rattle.rewrite_laws.specs.Rewrites.{paths};

use apply_ast::{Expr, Name};
use context_typing::begins;

/// Whether a path of an expression begins with an alias.
pub fn any_begins(alias: &Name, e: &Expr) -> bool
    ensures value { result ≡ list_any (path.begins alias.now) (paths (expr_of e.now)) }
{
    match e {
        Expr::Path(path) => begins(alias, path),
        Expr::Unary(_, a) => any_begins(alias, a),
        Expr::Binary(_, a, b) => any_begins(alias, a) || any_begins(alias, b),
        Expr::Call1(_, a) => any_begins(alias, a),
        Expr::Call2(_, a, b) => any_begins(alias, a) || any_begins(alias, b),
        Expr::Null => false,
        Expr::Bool(_) => false,
        Expr::Int(_) => false,
        Expr::Dec(_) => false,
        Expr::Text(_) => false,
        Expr::Day(_) => false,
    }
}

/// Whether an expression has a path.
pub fn has_path(e: &Expr) -> bool
    ensures value { result ≡ is_nonempty (paths (expr_of e.now)) }
{
    match e {
        Expr::Path(_) => true,
        Expr::Unary(_, a) => has_path(a),
        Expr::Binary(_, a, b) => has_path(a) || has_path(b),
        Expr::Call1(_, a) => has_path(a),
        Expr::Call2(_, a, b) => has_path(a) || has_path(b),
        Expr::Null => false,
        Expr::Bool(_) => false,
        Expr::Int(_) => false,
        Expr::Dec(_) => false,
        Expr::Text(_) => false,
        Expr::Day(_) => false,
    }
}

/// Whether each path of an expression begins with an alias.
fn each_begins(alias: &Name, e: &Expr) -> bool
    ensures { result ≡ list_all (path.begins alias.now) (paths (expr_of e.now)) }
{
    match e {
        Expr::Path(path) => begins(alias, path),
        Expr::Unary(_, a) => each_begins(alias, a),
        Expr::Binary(_, a, b) => each_begins(alias, a) && each_begins(alias, b),
        Expr::Call1(_, a) => each_begins(alias, a),
        Expr::Call2(_, a, b) => each_begins(alias, a) && each_begins(alias, b),
        Expr::Null => true,
        Expr::Bool(_) => true,
        Expr::Int(_) => true,
        Expr::Dec(_) => true,
        Expr::Text(_) => true,
        Expr::Day(_) => true,
    }
}

/// Whether an expression has a path, and each begins with an alias.
pub fn all_begin(alias: &Name, e: &Expr) -> bool
    ensures value { result ≡ (is_nonempty (paths (expr_of e.now)) && list_all (path.begins alias.now) (paths (expr_of e.now))) }
{
    has_path(e) && each_begins(alias, e)
}
