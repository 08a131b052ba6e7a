//! Tests of the crates that stand between the service and its files, a module for each. They say what no clause says: that
//! calls succeed where memory is ample, what objects over the system do, and rows from outside.
#![tactic(auto)]

#[cfg(test)]
mod data;
#[cfg(test)]
mod models;
#[cfg(test)]
mod outside;
#[cfg(test)]
mod values;
