//! Numbers in place of values.
//!
//! `Codes` has a number for each value of a list, below a bound. So who asks which values are the same looks at small numbers,
//! and finds what belongs to one in a list by its place, without a hash. `of_seen` makes them of integers, or of decimals of one
//! scale, that lie close together, also where some are null (`above`).
//!
//! The crate stands on `edm_values` for values and their order.
//!
//! It promises that two values are the same exactly where their numbers are equal (`specs/Codes`).
#![tactic(auto)]

mod above;
mod codes;

pub use codes::Codes;
