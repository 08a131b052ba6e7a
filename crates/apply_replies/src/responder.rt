//! What answers the lines of a stream.
ghost use Rattle.std.specs.Prelude.{◌≡◌, ℕ, ◌+◌, ◌≤◌};
ghost use Rattle.line_stream.specs.Outputs.{bytes_of};
ghost use Rattle.apply_replies.specs.Costs.{BoundsLineOf};
ghost use Rattle.apply_replies.specs.Replies.{IsReplyOf};

use crate::replies::reply_to;
use apply_meaning::Steps;
use apply_store::Store;
use line_stream::Output;
use par_stages::Gate;
use std::alloc::Global;
use std::sync::ledger::Ledger;
use std::thread::Threads;

/// Answers lines over a store, whose pipelines are rewritten before they run or run as they were written, by so many workers.
/// The gate is told of each piece of a fold that begins.
#[derive(Drop)]
pub struct Replies<'a, R, G> {
    rt: &'a R,
    alloc: Global,
    store: &'a Store,
    is_optimised: bool,
    workers: u32,
    gate: &'a G,
}

impl<'a, R: Threads + Sync, G: Gate> Replies<'a, R, G> {
    /// What answers lines over this store.
    pub fn new(
        rt: &'a R,
        alloc: Global,
        store: &'a Store,
        is_optimised: bool,
        workers: u32,
        gate: &'a G,
    ) -> Replies<'a, R, G>
        ensures store { result.store ≡ store.entry }
        ensures plan { result.is_optimised ≡ is_optimised }
    {
        Replies {
            rt,
            alloc,
            store,
            is_optimised,
            workers,
            gate,
        }
    }

    /// The reply to a line that is not empty, ready to be written. The counter rises by no more than what the line costs.
    pub fn reply<L: Ledger>(&self, steps: &mut Steps<L>, line: &[u8]) -> Output
        ensures reply { IsReplyOf self.now.store.now line.now (bytes_of result) }
        ensures steps { (n : ℕ) → BoundsLineOf self.now.is_optimised self.now.store.now line.now n → steps.new ≤ steps.old + n }
        ensures grown { steps.old ≤ steps.new }
    {
        reply_to(
            self.rt,
            self.alloc,
            self.store,
            self.is_optimised,
            line,
            self.workers,
            self.gate,
            steps,
        )
    }
}
