//! Names, paths of names, and lists of paths.
ghost use Rattle.std.specs.Prelude.{◌≡◌, ◌<◌, length, IfOk, if◌then◌else◌};
ghost use Rattle.edm_values.specs.Names as spec;

use edm_values::is_name;
use std::alloc::{AllocError, Global};
use std::marker::Model;
use std::sync::{ArcSlice, ArcStr};

/// A simple identifier (CSDL JSON 4.01, section 15.2) of at most 128 ASCII bytes that is no word of expressions. Copies
/// share the text.
#[derive(Debug, Drop)]
pub struct Name {
    pub(crate) text: ArcStr,
}

impl Model for Name {
    ghost use Rattle.std.specs.Prelude.{ℕ, List, IsTrue};
    ghost use Rattle.std.specs.Arc.{arc_str_bytes};
    ghost use Rattle.edm_values.specs.Names.{is_name};

    ghost Value = { List ℕ };

    ghost view = { λ n. arc_str_bytes n.text };

    ghost invariant = { λ n. IsTrue (is_name (arc_str_bytes n.text)) };
}

impl Name {
    /// The name that the text is, or `None` where it is none.
    pub fn new(alloc: Global, text: &str) -> Result<Option<Name>, AllocError>
        ensures value { IfOk result (λ o. o ≡ (if spec.is_name text.now then Some text.now else None)) }
    {
        if is_name(text) {
            Ok(Some(Name {
                text: ArcStr::from_str(alloc, text)?,
            }))
        } else {
            Ok(None)
        }
    }

    /// The name as it is written.
    pub fn text(&self) -> &str
        ensures value { result.now ≡ self.now }
    {
        self.text.as_str()
    }
}

/// The names of a path: a list of its own, as it was made, or one that copies share.
#[derive(Debug, Drop)]
pub(crate) enum Held {
    Own(Vec<Name>),
    Shared(ArcSlice<Name>),
}

/// A path of at least one name.
#[derive(Debug, Drop)]
pub struct Path {
    pub(crate) held: Held,
}

impl Model for Path {
    ghost use Rattle.std.specs.Prelude.{ℕ, ◌<◌, List, length};
    ghost use Rattle.apply_ast.specs.HeldNames.{held_names};

    ghost Value = { List (List ℕ) };

    ghost view = { λ p. held_names p.held };

    ghost invariant = { λ p. 0 < length (held_names p.held) };
}

impl Path {
    /// The path of these names.
    pub fn new(names: Vec<Name>) -> Path
        requires { 0 < length names.items }
        ensures value { result ≡ names.items }
    {
        Path {
            held: Held::Own(names),
        }
    }

    /// The names from the first to the last.
    pub fn names(&self) -> &[Name]
        ensures names { result.now ≡ self.now }
        ensures some { 0 < length result.now }
    {
        match &self.held {
            Held::Own(names) => names.as_slice(),
            Held::Shared(names) => names.as_slice(),
        }
    }
}

/// A list of paths.
#[derive(Debug, Drop)]
pub struct PathList {
    pub(crate) all: Vec<Path>,
}

impl Model for PathList {
    ghost use Rattle.std.specs.Prelude.{ℕ, List};

    ghost Value = { List (List (List ℕ)) };

    ghost view = { λ l. l.all.items };
}

impl PathList {
    /// The list of these paths.
    pub fn new(paths: Vec<Path>) -> PathList
        ensures value { result ≡ paths.items }
    {
        PathList { all: paths }
    }

    /// The paths in their order.
    pub fn as_slice(&self) -> &[Path]
        ensures value { result.now ≡ self.now }
    {
        &self.all
    }

    /// The paths that the list was made of.
    pub fn into_vec(self) -> Vec<Path>
        ensures value { result.items ≡ self }
    {
        self.all
    }
}
