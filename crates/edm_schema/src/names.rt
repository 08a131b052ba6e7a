//! The names of members: which are read, and what each is.
ghost use Rattle.std.specs.Prelude.{◌≡◌, ◌&&◌, not, map, drop, length, nat_eq, option_map, if◌then◌else◌, Some, None};
ghost use Rattle.std.specs.List.{starts_with};
ghost use Rattle.edm_values.specs.Lists as lists;
ghost use Rattle.edm_schema.specs.ModelTrees as spec;

/// A recursive hierarchy, before `#` and its qualifier.
pub(crate) const HIERARCHY_TERM: &str = "@Org.OData.Aggregation.V1.RecursiveHierarchy#";

/// A custom aggregate.
pub(crate) const AGGREGATE_TERM: &str = "@Org.OData.Aggregation.V1.CustomAggregate#";

/// The definition of a custom aggregate.
pub(crate) const DEFINITION_TERM: &str = "@Local.Apply.V1.Definition#";

/// Whether the name holds `@`.
pub fn is_annotation(name: &str) -> bool
    ensures value { result ≡ spec.is_annotation name.now }
{
    name.as_bytes().iter().any(|byte| b'@' == *byte)
}

/// What follows the front of a text that begins with it.
pub(crate) fn after<'t>(front: &str, text: &'t str) -> Option<&'t str>
    ensures { option_map (λ r. r.now) result ≡ (if starts_with nat_eq text.now front.now then Some (drop (length front.now) text.now) else None) }
{
    text.strip_prefix(front)
}

/// The text after the term, if the name is of the term and no annotation of such an annotation.
pub(crate) fn qualifier<'n>(term: &str, name: &'n str) -> Option<&'n str>
    ensures { option_map (λ q. q.now) result ≡ (if spec.is_of_term term.now name.now then Some (spec.qualifier term.now name.now) else None) }
{
    match after(term, name) {
        Some(qualifier) => {
            if is_annotation(qualifier) {
                None
            } else {
                Some(qualifier)
            }
        }
        None => None,
    }
}

/// Whether the name is of the term.
pub(crate) fn is_of_term(term: &str, name: &str) -> bool
    ensures { result ≡ spec.is_of_term term.now name.now }
{
    match qualifier(term, name) {
        Some(_) => true,
        None => false,
    }
}

/// Whether the name is of one of the three terms.
pub(crate) fn is_known_term(name: &str) -> bool
    ensures { result ≡ spec.is_known_term name.now }
{
    is_of_term(HIERARCHY_TERM, name)
        || is_of_term(AGGREGATE_TERM, name)
        || is_of_term(DEFINITION_TERM, name)
}

/// Whether a member of this name is accepted and not read.
pub fn is_unread(name: &str) -> bool
    ensures value { result ≡ spec.is_unread name.now }
{
    (is_annotation(name) && !is_known_term(name))
        || matches!(
            name,
            "$Reference"
                | "$Alias"
                | "$MaxLength"
                | "$Unicode"
                | "$DefaultValue"
                | "$OnDelete"
                | "$NavigationPropertyBinding"
                | "$IncludeInServiceDocument"
        )
}

/// Whether it is the name of a property or navigation of an entity type.
pub(crate) fn is_own(name: &str) -> bool
    ensures { result ≡ spec.is_own name.now }
{
    !is_unread(name) && !matches!(name, "$Kind" | "$Key") && !is_known_term(name)
}

/// Whether it is one of these names.
#[tactic(auto, using(crate::proofs::Mapped::mapped))]
pub fn is_one_of(names: &[&str], name: &str) -> bool
    ensures value { result ≡ lists.is_one_of (map (λ n. n.now) names.now) name.now }
{
    for known in names {
        if name == *known {
            return true;
        }
    }
    false
}
