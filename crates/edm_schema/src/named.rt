//! What is found by its name.
ghost use Rattle.std.specs.Prelude.{ℕ, ◌≡◌, ◌<◌, List, length, map, position, IfSome};
ghost use Rattle.std.specs.Cmp.Lexicographic.{slice_cmp};
ghost use Rattle.std.specs.Ordering.{nat_cmp};
ghost use Rattle.edm_values.specs.Lists.{same_text};
ghost use Rattle.edm_schema.specs.NameOrders.{AreOrdered};

use std::cmp::Ordering;

/// What has a name.
pub trait Named {
    // The name.
    ghost name_of: { Self → List ℕ };

    /// The name.
    fn name(&self) -> &str
        ensures value { result.now ≡ name_of self.now };
}

/// The place of the item of this name among items in byte order of their names.
pub fn find_named<T: Named>(items: &[T], name: &str) -> Option<usize>
    requires { AreOrdered (map T.name_of items.now) }
    ensures value { result ≡ position (λ x. same_text (T.name_of x) name.now) items.now }
    ensures there { IfSome result (λ k. k < length items.now) }
{
    let by_name = |item: &T| -> Ordering
        ensures { result ≡ slice_cmp nat_cmp (T.name_of item.now) name.entry.now }
    { item.name().cmp(name) };
    items.binary_search_by(by_name).ok()
}
