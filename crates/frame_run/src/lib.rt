//! Running a pipeline on a frame, so that no row is made of an instance that is only read.
//!
//! `held_after` passes what a pipeline has come to from one transformation to the next: a whole set of which no list is made, then a
//! frame, as long as each can be done on one, and then rows (`held`). On a set a `filter` by the key looks the entity up, and a climb
//! goes through what refers to its nodes (`front`); for any other transformation a frame of it is made. `identity`, `skip`, `top`, `filter`, selections, `orderby`, `compute` and `traverse` give a frame, and an
//! `aggregate` reads one (`frame_steps`), as a `groupby` does, which gives one where its groups are told by numbers, or where its inner pipeline only keeps some of the
//! instances of each group, or puts them in order (`grouped`). Any other inner pipeline that does not begin with an aggregation is run on a frame of the
//! instances of each group, where they are not few, and what it comes to is made into rows, which get the columns of the group's key. `ancestors` and `descendants` run their inner pipeline on a copy of
//! the frame, and give a frame. A `concat` runs each branch on a copy: where all come to frames of few tables these stand one
//! behind the other, and else their rows. A join runs its inner pipeline on a frame of what is related to each instance (`joins`): where
//! all come to entities of the target's set, it gives a frame, and else the rows are made, and all after it is run on rows.
//!
//! The crate stands on `row_frames` for frames, on `row_values` for frames as lists of instances, on `row_orders` for places in
//! order, on `step_run` for aggregations, selections, climbs, traversals, groups that are told by numbers and what a run works with, on
//! `pipe_run` for the groups of other groupings and transformations of rows, on `join_concat` for rows beside others, on `apply_meaning` for rows and the meaning of pipelines, on `context_typing` and `apply_ast` for pipelines, on
//! `edm_model`, `edm_data` and `edm_values` for types, data and values, on `hier_states` for the hierarchies that a pipeline names,
//! on `hier_rows` for the law of keys, and on `par_stages` for workers.
//!
//! It promises that what `held_after` answers is the meaning of the pipeline on the instances, made or not, refused exactly where
//! that is, and that the counter of steps rises by no more than the pipeline costs there and the rows that were not yet made, of
//! which those that still are not count as made, and never falls.
#![tactic(auto)]

mod frame_steps;
mod front;
mod grouped;
mod held;
mod joins;

pub use held::{Held, held_after, made_rows};
