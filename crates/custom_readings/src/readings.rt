//! The readings of custom aggregates.
ghost use Rattle.std.specs.Prelude.{◌≡◌, length, map, take, IfOk};
ghost use Rattle.edm_model.specs.IdLists.{custom_list};
ghost use Rattle.custom_readings.specs.Readings.{AnswersPaths, AnswersReading, AreRead};

use apply_ast::PathList;
use apply_grammar::{ExprRefused, read_expr, read_path};
use context_typing::ReadCustom;
use edm_model::{Custom, Model};
use edm_values::Text;
use std::alloc::{AllocError, Global};

/// The paths of these texts, if each is the text of one.
fn read_paths(alloc: Global, texts: &[Text]) -> Result<Option<PathList>, AllocError>
    ensures { IfOk result (AnswersPaths texts.now) }
{
    let mut paths = Vec::new(alloc);
    for text in texts {
        match read_path(alloc, text.as_str()) {
            Ok(path) => paths.push(path)?,
            Err(ExprRefused::Syntax) => return Ok(None),
            Err(ExprRefused::Memory) => return Err(AllocError),
        }
    }
    Ok(Some(PathList::new(paths)))
}

/// The reading of a custom aggregate's definition, if its texts have one.
fn read_custom(alloc: Global, custom: &Custom) -> Result<Option<ReadCustom>, AllocError>
    ensures { IfOk result (AnswersReading custom.now) }
{
    let of = match read_expr(alloc, custom.of.as_str()) {
        Ok(of) => of,
        Err(ExprRefused::Syntax) => return Ok(None),
        Err(ExprRefused::Memory) => return Err(AllocError),
    };
    match read_paths(alloc, custom.per.as_slice())? {
        Some(per) => Ok(Some(ReadCustom {
            id: custom.id,
            of,
            per,
        })),
        None => Ok(None),
    }
}

/// The readings of custom aggregates, up to the first that has none.
fn read_list(alloc: Global, customs: &[Custom]) -> Result<Vec<ReadCustom>, AllocError>
    ensures { IfOk result (λ l. AreRead customs.now l.items) }
{
    let mut list = Vec::new(alloc);
    for custom in customs {
        match read_custom(alloc, custom)? {
            Some(read) => list.push(read)?,
            None => return Ok(list),
        }
    }
    Ok(list)
}

/// The readings of a model's custom aggregates, by type name and then by name, up to the first that has none.
pub fn read_customs(alloc: Global, m: &Model) -> Result<Vec<ReadCustom>, AllocError>
    ensures read { IfOk result (λ l. AreRead (custom_list m.now) l.items) }
    ensures ids { IfOk result (λ l. map (λ r. r.id) l.items ≡ take (length l.items) (map (λ u. u.id) (custom_list m.now))) }
{
    let customs = m.customs();
    read_list(alloc, customs)
}
