//! Shapes, and the typing of expressions and pipelines (Data Aggregation 4.0, sections 3 and 6).
//!
//! `shapes` and `columns` have the types and their copies; `paths`, `orders` and `lookups` find what a path leads to; `kinds` and `expressions` type
//! expressions and say which are sure; `items`, `grouping`, `merging` and `joining` have the shape after each step
//! from its parts; `steps` walks over pipelines, and gives the shape and whether the steps are quiet in one pass; `customs`
//! keeps typed custom aggregates, and `definitions` types them; `typed` has the calls for pipelines.
//!
//! What those who rewrite pipelines ask of paths, expressions and shapes is public too: `is_test`, `is_risky`, `begins`, and the shape
//! behind a grouping, a join or a concatenation from those of its parts (`grouped_shape`, `joined_shape`, `concat_shape`).
#![tactic(auto)]

mod columns;
mod customs;
mod definitions;
mod expressions;
mod grouping;
mod items;
mod joining;
mod kinds;
mod laws;
mod lookups;
mod merging;
mod orders;
mod outcomes;
mod paths;
mod shapes;
mod steps;
mod typed;

pub use columns::{ColumnList, ColumnShape};
pub use customs::{Customs, ReadCustom};
pub use definitions::{CustomRefused, type_customs};
pub use expressions::is_sure;
pub use grouping::grouped_shape;
pub use items::{Nodes, is_test, nodes_of, set_shape};
pub use joining::{join_target, joined_shape};
pub use laws::{customs_are_typed, one_shape, set_shape_is_lawful, typing_keeps_lawful};
pub use lookups::is_risky;
pub use merging::concat_shape;
pub use outcomes::Outcome;
pub use paths::{begins, same_path};
pub use shapes::{PrefixList, PrefixShape, RootShape, Shape};
pub use steps::type_step;
pub use typed::{TypeRefused, Typed, is_quiet, type_pipe};
