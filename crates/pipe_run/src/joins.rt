//! What a join takes.
ghost use Rattle.std.specs.Prelude.{◌≡◌, IsTrue, Some, option_map};
ghost use Rattle.std.specs.List.{list_all};
ghost use Rattle.edm_model.specs.LookUps.{IsNavigation, navigation_on};
ghost use Rattle.apply_ast.specs.Trees as tree;
ghost use Rattle.apply_ast.specs.Views.{inner_of, pipe_of};
ghost use Rattle.context_typing.specs.Shapes.{Shape};
ghost use Rattle.context_typing.specs.Typing as typing;
ghost use Rattle.context_typing.specs.Typing.{root_type};
ghost use Rattle.join_concat.specs.Joins.{has_root_of, is_free_of};
ghost use Rattle.step_run.specs.Conditions.{StepReadyFrom};

use apply_ast::{Name, Pipe};
use apply_meaning::{Row, data_is_loaded};
use edm_model::{NavId, TypeId};
use par_stages::Gate;
use std::thread::Threads;
use step_run::Context;

/// The navigation property that a join takes, which is one of the type at the empty prefix.
pub(crate) fn join_navigation<R: Threads + Sync, G: Gate>(
    context: &Context<'_, R, G>,
    root: &Option<TypeId>,
    outer: bool,
    nav: &Name,
    alias: &Name,
    inner: &Option<Pipe>,
    rows: &[Row],
) -> NavId
    requires { StepReadyFrom context.now root.now (tree.Step.Join outer nav.now alias.now (inner_of (option_map pipe_of inner.now))) rows.now }
    ensures there { IsNavigation context.now.world.model result }
    ensures value { (S : Shape) → root_type S ≡ root.now → typing.join_navigation context.now.world.model S nav.now ≡ navigation_on context.now.world.model result }
    ensures of { IsTrue (list_all (has_root_of context.now.world result.of) rows.now) }
{
    let model = context.store().model();
    data_is_loaded(context.store());
    let Some(of) = root else { unreachable!() };
    let Some(found) = model.nav_named(*of, nav.text()) else {
        unreachable!()
    };
    found
}

/// The alias of a join begins no prefix and no column of a row.
pub(crate) fn alias_ready<R: Threads + Sync, G: Gate>(
    context: &Context<'_, R, G>,
    root: &Option<TypeId>,
    outer: bool,
    nav: &Name,
    alias: &Name,
    inner: &Option<Pipe>,
    rows: &[Row],
)
    requires { StepReadyFrom context.now root.now (tree.Step.Join outer nav.now alias.now (inner_of (option_map pipe_of inner.now))) rows.now }
    ensures { IsTrue (list_all (is_free_of alias.now) rows.now) }
{
    data_is_loaded(context.store());
}
