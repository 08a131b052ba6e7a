//! Tests of requests: their trees and printed texts (`apply_ast`), how they are read (`apply_grammar`), and which of them, and which
//! custom aggregates (`custom_readings`), have a typing (`context_typing`). They say what no clause says: rows from outside, and that
//! calls succeed where memory is ample.
//!
//! `reading` reads texts, copies what they are read as and compares what is printed of it, and where a line stops being a
//! request; `trees` makes trees by hand and compares what is printed. `typing_table` has requests beside their shapes,
//! `typing_trees` pipelines that no text has, `typing_customs` definitions of custom aggregates, and `typing_calls` the calls on
//! them; the tables themselves stand in modules of their own.
#![tactic(auto)]

#[cfg(test)]
mod reading;
#[cfg(test)]
mod stock_requests;
#[cfg(test)]
mod trees;
#[cfg(test)]
mod typed_requests;
#[cfg(test)]
mod typing_calls;
#[cfg(test)]
mod typing_customs;
#[cfg(test)]
mod typing_customs_rows;
#[cfg(test)]
mod typing_table;
#[cfg(test)]
mod typing_trees;
#[cfg(test)]
mod untyped_requests;
