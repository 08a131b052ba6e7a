//! The rules that a walk has.
ghost use Rattle.std.specs.Prelude.{◌≡◌};
ghost use Rattle.optimiser.specs.WalkRules.{rules_named};
ghost use Rattle.walk_laws.specs.Walks as spec;

/// The rules by which a walk settles a pipeline.
#[derive(Clone, Copy, Drop)]
pub enum Rules {
    /// The first eight.
    Early,
    /// All.
    All,
}

/// Whether they are all rules.
pub(crate) fn is_late(rules: Rules) -> bool
    ensures { result ≡ spec.is_late (rules_named rules) }
{
    match rules {
        Rules::Early => false,
        Rules::All => true,
    }
}
