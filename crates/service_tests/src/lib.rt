//! Tests of the service: the worked rows through `serve` (`apply_service`), over objects in memory.
//!
//! `worlds` has the files and lines that tests share, and `run_support` runs the service over them; `lines` has requests with their
//! responses, `plans` requests for plans, `files` refused files with their lines, `words` the words of the command, `modes`
//! what each mode writes, `sizes` requests over many rows, `deep` a hierarchy as deep as it has nodes, `workers` runs with several of
//! them, `pieces` for how many of them a list is cut, `ends` how runs end, `outside` the outside that fails while requests of every
//! form are answered, and `hostile` files and lines that are made to hurt.
#![tactic(auto)]

#[cfg(test)]
mod deep;
#[cfg(test)]
mod ends;
#[cfg(test)]
mod files;
#[cfg(test)]
mod hostile;
#[cfg(test)]
mod lines;
#[cfg(test)]
mod modes;
#[cfg(test)]
mod outside;
#[cfg(test)]
mod pieces;
#[cfg(test)]
mod plans;
#[cfg(test)]
mod sizes;
#[cfg(test)]
mod words;
#[cfg(test)]
mod workers;
#[cfg(test)]
mod worlds;
