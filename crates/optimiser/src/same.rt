//! Equality of pipelines.
ghost use Rattle.std.specs.Prelude.{◌≡◌};
ghost use Rattle.apply_ast.specs.Views.{pipe_of};
ghost use Rattle.rewrite_laws.specs.TreeEquality as spec;

use apply_ast::Pipe;
use rewrite_forms::same_step;

/// Whether two pipelines are equal: the same steps, one after the other.
pub(crate) fn same_pipe(a: &Pipe, b: &Pipe) -> bool
    ensures value { result ≡ spec.pipe_same (pipe_of a.now) (pipe_of b.now) }
{
    let steps = a.steps();
    let others = b.steps();
    if steps.len() != others.len() {
        return false;
    }
    for (i, step) in steps.iter().enumerate() {
        if !same_step(step, &others[i]) {
            return false;
        }
    }
    true
}
