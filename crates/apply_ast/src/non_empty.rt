//! Lists that are not empty.
ghost use Rattle.std.specs.Prelude.{◌≡◌, ◌<◌, length};

use std::marker::Model;

/// A list of at least one element.
#[derive(Debug, Drop)]
pub(crate) struct NonEmpty<T> {
    all: Vec<T>,
}

impl<T> Model for NonEmpty<T> {
    ghost use Rattle.std.specs.Prelude.{List, ◌<◌, length};
    ghost use Rattle.std.specs.Coded.{coded_list};

    ghost Value = { List T };

    ghost coded = { coded_list T.code };

    ghost view = { λ l. l.all.items };

    ghost invariant = { λ l. 0 < length l.all.items };
}

impl<T> NonEmpty<T> {
    /// The list of these.
    pub(crate) fn new(all: Vec<T>) -> NonEmpty<T>
        requires { 0 < length all.items }
        ensures { result ≡ all.items }
    {
        NonEmpty { all }
    }

    /// The elements in their order.
    pub(crate) fn as_slice(&self) -> &[T]
        ensures items { result.now ≡ self.now }
        ensures some { 0 < length result.now }
    {
        &self.all
    }
}
