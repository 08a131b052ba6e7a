//! The forms of steps that hold pipelines.
ghost use Rattle.std.specs.Prelude.{◌≡◌, option_map};
ghost use Rattle.apply_ast.specs.Views.{climb_of, inner_of, join_of, keys_of, pipe_of, pipes_of, step_of};
ghost use Rattle.rewrite_forms.specs.StepForms as spec;

use apply_ast::{ClimbStep, JoinStep, KeyList, Pipe, PipeList, Step};

/// The branches of a concatenation.
pub fn branches_of(step: &Step) -> Option<&PipeList>
    ensures value { option_map (λ l. pipes_of l.now) result ≡ spec.branches_of (step_of step.now) }
{
    match step {
        Step::Concat(branches) => Some(branches),
        _ => None,
    }
}

/// The keys of a grouping, and the pipeline for each group.
pub(crate) fn grouped_by(step: &Step) -> Option<(&KeyList, &Option<Pipe>)>
    ensures { option_map (λ x. (keys_of x.0.now, inner_of (option_map pipe_of x.1.now))) result ≡ spec.grouped_by (step_of step.now) }
{
    match step {
        Step::GroupBy(keys, inner) => Some((keys, inner)),
        _ => None,
    }
}

/// The join that a step is.
pub(crate) fn joined_by(step: &Step) -> Option<&JoinStep>
    ensures { option_map (λ j. join_of j.now) result ≡ spec.joined_by (step_of step.now) }
{
    match step {
        Step::Join(join) => Some(join),
        _ => None,
    }
}

/// The climb that a step is.
pub fn climbed_by(step: &Step) -> Option<&ClimbStep>
    ensures value { option_map (λ c. climb_of c.now) result ≡ spec.climbed_by (step_of step.now) }
{
    match step {
        Step::Climb(climb) => Some(climb),
        _ => None,
    }
}
