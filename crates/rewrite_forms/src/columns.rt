//! Which paths of an expression are columns that a computation makes.
ghost use Rattle.std.specs.Prelude.{◌≡◌, map};
ghost use Rattle.std.specs.List.{list_any};
ghost use Rattle.edm_values.specs.Lists.{same_text};
ghost use Rattle.apply_ast.specs.Views.{expr_of, named_of};
ghost use Rattle.rewrite_forms.specs.Columns as spec;
ghost use Rattle.rewrite_laws.specs.Rewrites.{is_among, paths};

use apply_ast::{Expr, Name, Named, Path};

/// Whether a path of an expression is one of the new columns.
pub fn names_any(e: &Expr, made: &[Named]) -> bool
    ensures value { result ≡ list_any (is_among (spec.new_paths (map named_of made.now))) (paths (expr_of e.now)) }
{
    match e {
        Expr::Path(path) => is_made(path, made),
        Expr::Unary(_, a) => names_any(a, made),
        Expr::Binary(_, a, b) => names_any(a, made) || names_any(b, made),
        Expr::Call1(_, a) => names_any(a, made),
        Expr::Call2(_, a, b) => names_any(a, made) || names_any(b, made),
        Expr::Null => false,
        Expr::Bool(_) => false,
        Expr::Int(_) => false,
        Expr::Dec(_) => false,
        Expr::Text(_) => false,
        Expr::Day(_) => false,
    }
}

/// Whether a path is one of the new columns.
pub fn is_made(path: &Path, made: &[Named]) -> bool
    ensures value { result ≡ is_among (spec.new_paths (map named_of made.now)) path.now }
{
    let names = path.names();
    if names.len() != 1 {
        return false;
    }
    is_new(&names[0], made)
}

/// Whether a name is that of a new column.
fn is_new(name: &Name, made: &[Named]) -> bool
    ensures { result ≡ list_any (λ x. same_text name.now x.name) made.now }
{
    made.iter().any(|x| name.text() == x.name.text())
}
