//! Copies of trees with one part changed.
ghost use Rattle.std.specs.Prelude.{◌≡◌, ◌<◌, ◌+◌, ◌++◌, ◌∷◌, IfOk, OnOk, length, map, option_map};
ghost use Rattle.apply_ast.specs.Trees.{pipe, Step as tree, Key as key, OptPipe as opt};
ghost use Rattle.apply_ast.specs.declared.steps.JoinStep.{out-JoinStep};
ghost use Rattle.apply_ast.specs.Views.{hier_of, key_of, keys_from, keys_of, pipe_of, pipes_from, pipes_of, step_of};

use apply_ast::{HierName, JoinStep, KeyItem, KeyList, Path, Pipe, PipeList, Step};
use rewrite_forms::put_copies;
use std::alloc::{AllocError, Global};

/// The pipeline of steps and of what was made of those behind them.
pub(crate) fn with_rest(alloc: Global, before: &[Step], made: Vec<Step>) -> Result<Pipe, AllocError>
    requires { 0 < length before.now + length made.items }
    ensures { IfOk result (λ p. pipe_of p ≡ pipe (map step_of before.now ++ map step_of made.items)) }
{
    let mut all = Vec::new(alloc);
    put_copies(&mut all, alloc, before)?;
    for step in made {
        all.push(step)?;
    }
    Ok(Pipe::new(all))
}

/// The pipeline with another step between these.
pub(crate) fn with_step(
    alloc: Global,
    before: &[Step],
    made: Step,
    rest: &[Step],
) -> Result<Pipe, AllocError>
    ensures { IfOk result (λ p. pipe_of p ≡ pipe (map step_of before.now ++ step_of made ∷ map step_of rest.now)) }
{
    let mut all = Vec::new(alloc);
    put_copies(&mut all, alloc, before)?;
    all.push(made)?;
    put_copies(&mut all, alloc, rest)?;
    Ok(Pipe::new(all))
}

/// The list of these keys.
fn key_list(all: Vec<KeyItem>) -> KeyList
    ensures { keys_of result ≡ keys_from (map key_of all.items) }
{
    KeyList::new(all)
}

/// Puts copies of keys at the end of a list.
fn put_key_copies(out: &mut Vec<KeyItem>, alloc: Global, keys: &[KeyItem]) -> Result<(), AllocError>
    ensures { OnOk result (map key_of out.new.items ≡ map key_of out.old.items ++ map key_of keys.now) }
{
    for key in keys {
        out.push(key.copy(alloc)?)?;
    }
    Ok(())
}

/// The keys with another one between these.
pub(crate) fn with_key(
    alloc: Global,
    before: &[KeyItem],
    made: KeyItem,
    rest: &[KeyItem],
) -> Result<KeyList, AllocError>
    ensures { IfOk result (λ l. keys_of l ≡ keys_from (map key_of before.now ++ key_of made ∷ map key_of rest.now)) }
{
    let mut all = Vec::new(alloc);
    put_key_copies(&mut all, alloc, before)?;
    all.push(made)?;
    put_key_copies(&mut all, alloc, rest)?;
    Ok(key_list(all))
}

/// The branches with another one between these.
pub(crate) fn with_branch(
    alloc: Global,
    before: &[Pipe],
    made: Pipe,
    rest: &[Pipe],
) -> Result<PipeList, AllocError>
    ensures { IfOk result (λ l. pipes_of l ≡ pipes_from (map pipe_of before.now ++ pipe_of made ∷ map pipe_of rest.now)) }
{
    let mut all = Vec::new(alloc);
    for branch in before {
        all.push(branch.copy(alloc)?)?;
    }
    all.push(made)?;
    for branch in rest {
        all.push(branch.copy(alloc)?)?;
    }
    Ok(PipeList::new(all))
}

/// The key with another pipeline.
pub(crate) fn with_nodes(
    alloc: Global,
    hier: &HierName,
    path: &Path,
    made: Option<Pipe>,
) -> Result<Option<KeyItem>, AllocError>
    ensures { IfOk result (λ o. option_map key_of o ≡ option_map (λ q. key.Recursive (hier_of hier.now) path.now (opt.SomePipe q)) (option_map pipe_of made)) }
{
    match made {
        Some(pipe) => {
            let hier = hier.copy(alloc)?;
            Ok(Some(KeyItem::Recursive(hier, path.copy(alloc)?, Some(pipe))))
        }
        None => Ok(None),
    }
}

/// The grouping with another pipeline for each group.
pub(crate) fn with_groups(
    alloc: Global,
    keys: &KeyList,
    made: Option<Pipe>,
) -> Result<Option<Step>, AllocError>
    ensures { IfOk result (λ o. option_map step_of o ≡ option_map (λ q. tree.GroupBy (keys_of keys.now) (opt.SomePipe q)) (option_map pipe_of made)) }
{
    match made {
        Some(pipe) => Ok(Some(Step::GroupBy(keys.copy(alloc)?, Some(pipe)))),
        None => Ok(None),
    }
}

/// The join with another pipeline.
pub(crate) fn with_related(
    alloc: Global,
    join: &JoinStep,
    made: Option<Pipe>,
) -> Result<Option<Step>, AllocError>
    ensures { IfOk result (λ o. option_map step_of o ≡ option_map (λ q. tree.Join (out-JoinStep join.now).outer (out-JoinStep join.now).nav (out-JoinStep join.now).alias (opt.SomePipe q)) (option_map pipe_of made)) }
{
    match made {
        Some(pipe) => Ok(Some(Step::Join(JoinStep {
            outer: join.outer,
            nav: join.nav.copy(alloc)?,
            alias: join.alias.copy(alloc)?,
            inner: Some(pipe),
        }))),
        None => Ok(None),
    }
}
