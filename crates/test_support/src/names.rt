//! Names and paths that tests are made of.
ghost use Rattle.std.specs.Prelude.{◌≡◌, ◌∷◌, [], IfOk};

use apply_ast::{Name, Path};
use std::alloc::{AllocError, Global};

/// The name that the text is; a refusal also where it is none.
pub fn name(alloc: Global, text: &str) -> Result<Name, AllocError>
    ensures value { IfOk result (λ n. n ≡ text.now) }
{
    match Name::new(alloc, text)? {
        Some(name) => Ok(name),
        None => Err(AllocError),
    }
}

/// The path of one name.
pub fn path(alloc: Global, text: &str) -> Result<Path, AllocError>
    ensures value { IfOk result (λ p. p ≡ text.now ∷ []) }
{
    let name = name(alloc, text)?;
    Ok(Path::new(vec![in alloc; name]?))
}

/// The path of two names.
pub fn longer_path(alloc: Global, first: &str, second: &str) -> Result<Path, AllocError>
    ensures value { IfOk result (λ p. p ≡ first.now ∷ second.now ∷ []) }
{
    let first = name(alloc, first)?;
    let second = name(alloc, second)?;
    Ok(Path::new(vec![in alloc; first, second]?))
}
