//! The trees of requests and their printed texts (Data Aggregation 4.0, section 3; URL Conventions 4.01, section 5.1.1).
//!
//! `names` has names and paths, `expressions` the expressions of filters and computations, `items` what stands in the
//! parentheses of steps and holds no pipeline, `non_empty` lists that are not empty, and `steps` the pipelines themselves. A
//! list inside a public type is a small type over `Vec`: made from one, read as a slice, and taken apart again without
//! memory. `copies` copies each tree, and `expression_texts`, `item_texts` and `step_texts` print them. What holds an
//! expression or a pipeline has no `Debug`: its printed text shows it.
//!
//! The crate stands on `edm_values` for literals, their plain texts and simple identifiers. Definitions are over the
//! mathematical trees of `specs/Trees`; `specs/Views` leads from a value of the program to its tree, and two values are
//! the same where their trees are. `specs/Grammar` says which texts a tree has, and `specs/Printing` which of them is
//! printed.
//!
//! It promises: a tree is what it was made from; a pipeline has at least one step; a copy has the tree of its original, and a
//! copy of a copied path takes no memory; `Name::new` accepts exactly the names; `print` gives exactly the printed text,
//! which is a text of the grammar for each tree that the grammar can write.
#![tactic(auto)]

mod copies;
mod expression_texts;
mod expressions;
mod item_texts;
mod items;
mod names;
mod non_empty;
mod step_texts;
mod steps;

pub use edm_values::Method;
pub use expressions::{BinOp, Expr, Fun1, Fun2, UnOp};
pub use items::{
    AggItem, AggList, HierName, Limit, Named, NamedList, Number, OrderItem, OrderList, TopStep,
    TraverseStep,
};
pub use names::{Name, Path, PathList};
pub use step_texts::{print, printed_is_text, texts_are_writable};
pub use steps::{ClimbStep, JoinStep, KeyItem, KeyList, Pipe, PipeList, Request, Step};
