//! Names and paths.
ghost use Rattle.std.specs.Prelude.{◌≡◌, ℕ, ◌<◌, length, IfOk, List, Option, Some};
ghost use Rattle.edm_values.specs.Names.{Path};
ghost use Rattle.apply_grammar.specs.Gives.{Gives};
ghost use Rattle.apply_grammar.specs.Limits.{PathText};
ghost use Rattle.apply_grammar.specs.Reading as reading;

use crate::bytes::{after, comma_at, word_run};
use crate::refusals::ExprRefused;
use apply_ast::{Name, Path, PathList};
use std::alloc::Global;

/// The name at the front.
#[tactic(auto, unfolding(crate::specs::Reading::name_at))]
pub(crate) fn read_name(alloc: Global, text: &[u8]) -> Result<(Name, &[u8]), ExprRefused>
    ensures { Gives (λ x. (x.0, x.1.now)) result (reading.name_at text.now) }
{
    let (word, rest) = word_run(text);
    match str::from_utf8(word) {
        Ok(word) => match Name::new(alloc, word)? {
            Some(name) => Ok((name, rest)),
            None => Err(ExprRefused::Syntax),
        },
        Err(_) => Err(ExprRefused::Syntax),
    }
}

/// The path at the front.
pub(crate) fn path_at(alloc: Global, text: &[u8]) -> Result<(Path, &[u8]), ExprRefused>
    ensures { Gives (λ x. (x.0, x.1.now)) result (reading.path_at text.now) }
{
    let (first, mut rest) = read_name(alloc, text)?;
    let mut names = Vec::new(alloc);
    names.push(first)?;
    while let Some(behind) = after(rest, b'/') {
        let (name, next) = read_name(alloc, behind)?;
        names.push(name)?;
        rest = next;
    }
    Ok((Path::new(names), rest))
}

/// Paths with a comma between each two.
pub(crate) fn read_paths(alloc: Global, text: &[u8]) -> Result<(PathList, &[u8]), ExprRefused>
    ensures { Gives (λ x. (x.0, x.1.now)) result (reading.list_at reading.comma_at reading.path_at text.now) }
{
    let (first, mut rest) = path_at(alloc, text)?;
    let mut list = Vec::new(alloc);
    list.push(first)?;
    while let Some(behind) = comma_at(rest) {
        let (item, next) = path_at(alloc, behind)?;
        list.push(item)?;
        rest = next;
    }
    Ok((PathList::new(list), rest))
}

/// The path that is all of the text.
#[tactic(auto, unfolding(crate::specs::Reading::whole_path))]
fn whole_path(alloc: Global, text: &[u8]) -> Result<Path, ExprRefused>
    ensures { Gives (λ p. p) result (reading.whole_path text.now) }
{
    let (path, rest) = path_at(alloc, text)?;
    if rest.is_empty() {
        Ok(path)
    } else {
        Err(ExprRefused::Syntax)
    }
}

/// The path that the text is.
pub fn read_path(alloc: Global, text: &str) -> Result<Path, ExprRefused>
    // What is read is the text's path.
    ensures found { IfOk result (λ p. PathText text.now p) }
    // The text of a path is read, unless memory runs out.
    ensures only { (p : Path) → PathText text.now p → Gives (λ q. q) result (Some p) }
{
    whole_path(alloc, text.as_bytes())
}
