//! Paths under an alias.
ghost use Rattle.std.specs.Prelude.{◌≡◌, ◌∷◌, IfOk};

use apply_ast::{Name, Path};
use std::alloc::{AllocError, Global};

/// The path under the alias.
pub(crate) fn beneath(alloc: Global, alias: &Name, names: &[Name]) -> Result<Path, AllocError>
    ensures { IfOk result (λ p. p ≡ alias.now ∷ names.now) }
{
    let mut all = Vec::with_capacity(alloc, names.len() + 1)?;
    all.push(alias.copy(alloc)?)?;
    for name in names {
        all.push(name.copy(alloc)?)?;
    }
    Ok(Path::new(all))
}
