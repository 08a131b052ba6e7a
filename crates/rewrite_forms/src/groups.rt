//! Groupings that are quiet.
ghost use Rattle.std.specs.Prelude.{◌≡◌, IfOk, IfSome, IsTrue, is_some, map, option_map};
ghost use Rattle.apply_ast.specs.Views.{inner_of, key_of, keys_from, pipe_of};
ghost use Rattle.context_typing.specs.Readings.{readings, AreTypedOver};
ghost use Rattle.context_typing.specs.ShapeTypes.{has_types};
ghost use Rattle.context_typing.specs.Typing as typing;
ghost use Rattle.rewrite_laws.specs.Rewrites as rule;

use crate::keys::any_risky;
use apply_ast::{KeyItem, Pipe};
use context_typing::{Customs, Shape, is_quiet};
use edm_model::Model;
use std::alloc::{AllocError, Global};

/// Whether the pipeline for each group is quiet, where there is one.
pub fn inner_quiet(
    alloc: Global,
    m: &Model,
    c: &Customs,
    shape: &Shape,
    inner: &Option<Pipe>,
) -> Result<bool, AllocError>
    requires types { IsTrue (has_types m.now shape.now) }
    requires customs { AreTypedOver m.now c.now }
    requires typed { IfSome inner.now (λ p. IsTrue (is_some (typing.steps_shape m.now (readings c.now) shape.now (pipe_of p)))) }
    ensures value { IfOk result (λ quiet. quiet ≡ typing.inner_quiet m.now (readings c.now) shape.now (inner_of (option_map pipe_of inner.now))) }
{
    match inner {
        Some(pipe) => is_quiet(alloc, m, c, shape, pipe),
        None => Ok(true),
    }
}

/// Whether no key of a grouping may be past its range, and what is made of each group is quiet.
pub fn grouping_quiet(
    alloc: Global,
    m: &Model,
    c: &Customs,
    shape: &Shape,
    keys: &[KeyItem],
    inner: &Option<Pipe>,
) -> Result<bool, AllocError>
    requires types { IsTrue (has_types m.now shape.now) }
    requires customs { AreTypedOver m.now c.now }
    requires typed { IfSome inner.now (λ p. IsTrue (is_some (typing.steps_shape m.now (readings c.now) shape.now (pipe_of p)))) }
    ensures value { IfOk result (λ quiet. quiet ≡ rule.grouping_quiet m.now (readings c.now) shape.now (keys_from (map key_of keys.now)) (inner_of (option_map pipe_of inner.now))) }
{
    if any_risky(shape, keys) {
        return Ok(false);
    }
    inner_quiet(alloc, m, c, shape, inner)
}
