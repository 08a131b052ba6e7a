//! Pipelines with their typings.
ghost use Rattle.std.specs.Prelude.{◌≡◌, IfOk, IsTrue, is_some};
ghost use Rattle.edm_model.specs.LookUps.{IsSet};
ghost use Rattle.apply_ast.specs.Views.{pipe_of};
ghost use Rattle.context_typing.specs.Answers.{IfAt, IsPlace, IsTyping};
ghost use Rattle.context_typing.specs.Readings.{readings, AreTypedOver};
ghost use Rattle.context_typing.specs.ShapeTypes.{has_types};
ghost use Rattle.context_typing.specs.Typing.{IsUntypedAt};
ghost use Rattle.context_typing.specs.Typing as spec;

use crate::customs::Customs;
use crate::items::set_shape;
use crate::outcomes::Walk;
use crate::shapes::Shape;
use crate::steps::type_steps;
use apply_ast::Pipe;
use edm_model::{Model, SetId};
use std::alloc::{AllocError, Global};
use thiserror::Error;

/// A pipeline over an entity set, and the shape of its result.
#[derive(Drop)]
pub struct Typed {
    pub set: SetId,
    pub pipe: Pipe,
    pub shape: Shape,
}

/// Why a pipeline is refused.
#[derive(Clone, Copy, Debug, PartialEq, Eq, Error)]
pub enum TypeRefused {
    /// The transformation at this place, from 1, has no typing.
    #[error("transformation {0} has no typing")]
    At(u32),
    /// The typing does not fit in memory.
    #[error("there is not enough memory")]
    Memory,
}

impl From<AllocError> for TypeRefused {
    ghost use Rattle.context_typing.specs.declared.typed.TypeRefused.TheVariants.{Memory};

    ghost from_gives = { λ _ e. e ≡ Memory };

    fn from(_: AllocError) -> TypeRefused {
        TypeRefused::Memory
    }
}

impl Typed {
    /// The same pipeline and shape.
    pub fn copy(&self, alloc: Global) -> Result<Typed, AllocError>
        ensures set { IfOk result (λ t. t.set ≡ self.now.set) }
        ensures pipe { IfOk result (λ t. pipe_of t.pipe ≡ pipe_of self.now.pipe) }
        ensures shape { IfOk result (λ t. t.shape ≡ self.now.shape) }
    {
        Ok(Typed {
            set: self.set,
            pipe: self.pipe.copy(alloc)?,
            shape: self.shape.copy(alloc)?,
        })
    }
}

/// The place of a transformation; a pipeline with more of them than 32 bits count does not fit in memory.
fn refused_at(k: usize) -> TypeRefused
    ensures { IsPlace k result }
{
    match u32::try_from(k) {
        Ok(k) => TypeRefused::At(k),
        Err(_) => TypeRefused::Memory,
    }
}

/// The typing of a pipeline over an entity set.
pub fn type_pipe(
    alloc: Global,
    m: &Model,
    c: &Customs,
    s: SetId,
    p: &Pipe,
) -> Result<Typed, TypeRefused>
    requires set { IsSet m.now s }
    requires customs { AreTypedOver m.now c.now }
    ensures set { IfOk result (λ t. t.set ≡ s) }
    ensures pipe { IfOk result (λ t. pipe_of t.pipe ≡ pipe_of p.now) }
    ensures typing { IfOk result (IsTyping m.now (readings c.now)) }
    ensures untyped { IfAt result (IsUntypedAt m.now (readings c.now) (spec.shape_of_set m.now s) (pipe_of p.now)) }
{
    let _sets = m.sets();
    let shape = set_shape(alloc, m.set_type(s));
    match type_steps(alloc, m, c, shape, p)? {
        Walk::Typed(outcome) => Ok(Typed {
            set: s,
            pipe: p.copy(alloc)?,
            shape: outcome.shape,
        }),
        Walk::Untyped(k) => Err(refused_at(k)),
    }
}

/// Whether each filter, order item, key, selecting expression and node path of a pipeline is sure on the shape on which
/// it is evaluated, inner pipelines included.
pub fn is_quiet(
    alloc: Global,
    m: &Model,
    c: &Customs,
    s: &Shape,
    p: &Pipe,
) -> Result<bool, AllocError>
    requires types { IsTrue (has_types m.now s.now) }
    requires customs { AreTypedOver m.now c.now }
    requires typed { IsTrue (is_some (spec.steps_shape m.now (readings c.now) s.now (pipe_of p.now))) }
    ensures value { IfOk result (λ quiet. quiet ≡ spec.is_quiet m.now (readings c.now) s.now (pipe_of p.now)) }
{
    let _sets = m.sets();
    match type_steps(alloc, m, c, s.copy(alloc)?, p)? {
        Walk::Typed(outcome) => Ok(outcome.quiet),
        Walk::Untyped(_) => unreachable!(),
    }
}
