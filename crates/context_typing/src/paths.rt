//! Paths compared with paths.
ghost use Rattle.std.specs.Prelude.{◌≡◌};
ghost use Rattle.context_typing.specs.Orders as order;
ghost use Rattle.context_typing.specs.Paths as spec;

use apply_ast::{Name, Path};
use std::cmp::Ordering;

/// How two paths stand to each other, name by name.
pub(crate) fn compare(a: &[Name], b: &[Name]) -> Ordering
    ensures { result ≡ order.path_cmp a.now b.now }
{
    for (i, name) in a.iter().enumerate() {
        match b.get(i) {
            None => return Ordering::Greater,
            Some(other) => match name.text().cmp(other.text()) {
                Ordering::Less => return Ordering::Less,
                Ordering::Equal => {}
                Ordering::Greater => return Ordering::Greater,
            },
        }
    }
    if a.len() < b.len() {
        Ordering::Less
    } else {
        Ordering::Equal
    }
}

/// Whether the two have the same names, byte by byte, in the same order.
pub fn same_path(a: &[Name], b: &[Name]) -> bool
    ensures value { result ≡ spec.same_path a.now b.now }
{
    a.len() == b.len() && compare(a, b).is_eq()
}

/// Whether the first is a prefix of the second.
pub(crate) fn is_prefix(a: &[Name], b: &[Name]) -> bool
    ensures { result ≡ spec.is_prefix a.now b.now }
{
    a.len() <= b.len() && same_path(a, &b[..a.len()])
}

/// Whether the path begins with the name.
pub fn begins(name: &Name, path: &Path) -> bool
    ensures value { result ≡ spec.begins name.now path.now }
{
    match path.names().first() {
        None => false,
        Some(first) => name.text() == first.text(),
    }
}
