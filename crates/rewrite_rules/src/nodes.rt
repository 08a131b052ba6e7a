//! Keys with a filter at the end of the pipeline that chooses the nodes.
ghost use Rattle.std.specs.Prelude.{◌≡◌, IfOk, map, option_map};
ghost use Rattle.apply_ast.specs.Views.{expr_of, inner_of, key_of, keys_from, pipe_of, step_of};
ghost use Rattle.rewrite_laws.specs.Rewrites as rule;
ghost use Rattle.apply_ast.specs.Trees.{Step as tree};

use crate::ended::ended_inner;
use apply_ast::{Expr, KeyItem, KeyList, Pipe, Step};
use rewrite_forms::copy_inner;
use std::alloc::{AllocError, Global};

/// The key with a filter at the end of its pipeline, if it is a recursive rollup.
fn ended_key(alloc: Global, key: &KeyItem, test: &Expr) -> Result<KeyItem, AllocError>
    ensures { IfOk result (λ k. key_of k ≡ rule.ended_key (tree.Filter (expr_of test.now)) (key_of key.now)) }
{
    match key {
        KeyItem::Plain(_) => key.copy(alloc),
        KeyItem::Rollup(_, _) => key.copy(alloc),
        KeyItem::Recursive(hier, path, chosen) => {
            let hier = hier.copy(alloc)?;
            let path = path.copy(alloc)?;
            let chosen = ended_inner(alloc, chosen, Step::Filter(test.copy(alloc)?))?;
            Ok(KeyItem::Recursive(hier, path, Some(chosen)))
        }
    }
}

/// Copies of keys, each recursive rollup among them with a filter at the end of its pipeline.
fn ended_keys(alloc: Global, keys: &[KeyItem], test: &Expr) -> Result<Vec<KeyItem>, AllocError>
    ensures { IfOk result (λ v. map key_of v.items ≡ map (λ k. rule.ended_key (tree.Filter (expr_of test.now)) (key_of k)) keys.now) }
{
    let mut made = Vec::new(alloc);
    for key in keys {
        made.push(ended_key(alloc, key, test)?)?;
    }
    Ok(made)
}

/// The grouping with a filter at the end of the pipeline that chooses its nodes.
pub(crate) fn with_chosen(
    alloc: Global,
    keys: &[KeyItem],
    inner: &Option<Pipe>,
    test: &Expr,
) -> Result<Step, AllocError>
    ensures { IfOk result (λ s. step_of s ≡ tree.GroupBy (rule.ended_keys (tree.Filter (expr_of test.now)) (keys_from (map key_of keys.now))) (inner_of (option_map pipe_of inner.now))) }
{
    let keys = KeyList::new(ended_keys(alloc, keys, test)?);
    Ok(Step::GroupBy(keys, copy_inner(alloc, inner)?))
}
