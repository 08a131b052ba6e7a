//! Texts of paths.
ghost use Rattle.std.specs.Prelude.{◌≡◌, ◌++◌, string_bytes, OnOk};
ghost use Rattle.apply_ast.specs.Printing.{byte_before, print_path};

use apply_ast::Path;
use std::alloc::AllocError;

/// The slash before the name at this place of a path, if one stands there.
fn slash_before(place: usize) -> &'static str
    ensures { result.now ≡ byte_before 47 place }
{
    if place > 0 { "/" } else { "" }
}

/// Appends the names of a path with slashes between them.
pub fn push_path(text: &mut String, path: &Path) -> Result<(), AllocError>
    ensures value { OnOk result (string_bytes text.new ≡ string_bytes text.old ++ print_path path.now) }
{
    for (i, name) in path.names().iter().enumerate() {
        text.push_str(slash_before(i))?;
        text.push_str(name.text())?;
    }
    Ok(())
}
