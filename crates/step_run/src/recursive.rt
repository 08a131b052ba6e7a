//! Recursive rollups: the levels of a grouping by the nodes of a hierarchy.
ghost use Rattle.std.specs.Prelude.{◌≡◌, ◌<◌, ◌∷◌, [], ◌++◌, All, IfOk, IsTrue, Some, is_some, map};
ghost use Rattle.edm_data.specs.References.{count};
ghost use Rattle.edm_model.specs.LookUps.{HierarchyPlace, IsSet};
ghost use Rattle.apply_ast.specs.Views.{hier_of, keys_of};
ghost use Rattle.context_typing.specs.Typing.{hierarchy_at, plain_paths};
ghost use Rattle.apply_meaning.specs.Running.{all_of};
ghost use Rattle.hier_states.specs.States.{IsReadyAt};
ghost use Rattle.step_run.specs.Levels as spec;
ghost use Rattle.step_run.specs.Levels.{GivesNodeLevels, node_level};

use crate::contexts::Context;
use crate::levels::{Level, plain_keys};
use aggregate_ops::Groups;
use apply_ast::{HierName, KeyList, Path};
use apply_meaning::RunRefused;
use edm_data::Data;
use edm_model::SetId;
use hier_rows::{identifier, nodes_of};
use par_stages::Gate;
use row_values::RowList;
use std::alloc::{AllocError, Global};
use std::thread::Threads;

/// One level for each node, with the groups of the rows at it or below it.
fn levels_by_node<'a>(
    alloc: Global,
    store: &Data,
    set: SetId,
    paths: &'a [Path],
    rolled: Vec<(u32, Groups)>,
) -> Result<Vec<Level<'a>>, AllocError>
    requires { IsSet store.now.model set }
    ensures { IfOk result (λ levels. (f : HierarchyPlace) → f.set ≡ set → levels.items ≡ map (node_level store.now f paths.now) rolled.items) }
{
    let mut levels = Vec::with_capacity(alloc, rolled.len())?;
    for (node, groups) in rolled {
        let node = identifier(alloc, store, set, node)?;
        levels.push(Level::of_node(paths, groups, node))?;
    }
    Ok(levels)
}

/// The levels of a grouping with a recursive rollup: one for each node that is shown and that has rows at it or below it. They
/// borrow the paths of the keys.
pub fn node_levels<'a, R: Threads + Sync, G: Gate>(
    alloc: Global,
    context: &Context<'_, R, G>,
    keys: &KeyList,
    paths: &'a [Path],
    hier: &HierName,
    path: &Path,
    shown: &[u32],
    rows: &RowList<'_>,
) -> Result<Vec<Level<'a>>, RunRefused>
    requires all { paths.now ≡ plain_paths (keys_of keys.now) ++ path.now ∷ [] }
    requires of { IsTrue (all_of context.now.world rows.now) }
    requires there { IsTrue (is_some (hierarchy_at context.now.world.model (hier_of hier.now))) }
    requires ready { IsReadyAt context.now.world context.now.hiers (hier_of hier.now) }
    requires shown { (f : HierarchyPlace) → hierarchy_at context.now.world.model (hier_of hier.now) ≡ Some f → All (λ x. x < count context.now.world f.set) shown.now }
    ensures levels { (f : HierarchyPlace) → hierarchy_at context.now.world.model (hier_of hier.now) ≡ Some f
        → GivesNodeLevels result context.now.world f (plain_paths (keys_of keys.now)) path.now shown.now rows.now }
{
    let plain = plain_keys(alloc, keys.as_slice())?;
    let plain = plain.as_slice();
    let found = context.nodes(hier);
    let store = context.store();
    let (rt, workers) = (context.rt(), context.workers());
    let nodes = nodes_of(rt, alloc, store, found.set, path, rows, workers)?;
    let lists = context.key_lists(alloc, plain, rows)?;
    let rolled = context.roll(
        alloc,
        found.index,
        nodes.as_slice(),
        shown,
        lists.as_slice(),
    )?;
    Ok(levels_by_node(alloc, store, found.set, paths, rolled)?)
}
