//! The sample requests.
ghost use Rattle.std.specs.Prelude.{◌≡◌, ℕ, map, OnOk, OnErr};
ghost use Rattle.apply_io.specs.Causes.{HasCause};
ghost use Rattle.line_stream.specs.Answers.{Writes, WritesPart};
ghost use Rattle.line_stream.specs.Costs.{Rises};
ghost use Rattle.apply_replies.specs.Costs.{BoundsLineOf};
ghost use Rattle.apply_replies.specs.Replies.{IsReplyOf};
ghost use Rattle.apply_service.specs.Samples as spec;

use crate::stream::answer_line;
use apply_io::{Failed, Sink};
use apply_meaning::Steps;
use apply_replies::Replies;
use par_stages::Gate;
use std::sync::ledger::Ledger;
use std::thread::Threads;

/// The sample requests.
fn sample_lines() -> [&'static str; 5]
    ensures { map (λ line. line.now) result ≡ spec.sample_lines }
{
    [
        "Sales?$apply=aggregate(Amount with sum as T,$count as N)",
        "Sales?$apply=groupby((Customer/Country),aggregate(Amount with sum as T))",
        "Sales?$apply=groupby((rollup(Customer/Country,CustomerID)),aggregate($count as N))/filter(Customer/Country eq 'US')",
        "Sales?$apply=groupby((rolluprecursive($root/Orgs,OrgTree,OrgID)),aggregate(Amount with sum as T))/filter(OrgID eq 'O0')",
        "Sales?$apply=topcount(10,Amount)/aggregate(Amount with min as L)",
    ]
}

/// Writes the replies to the sample requests, in order.
pub(crate) fn answer_samples<R: Threads + Sync, G: Gate, L: Ledger, K: Sink>(
    replies: &Replies<'_, R, G>,
    steps: &mut Steps<L>,
    output: &mut K,
) -> Result<(), Failed>
    ensures cause { HasCause (K.fault_count output.old) (K.fault_count output.new) result }
    ensures ok { OnOk result (Writes (IsReplyOf replies.now.store.now) spec.sample_lines (K.held output.old) (K.held output.new)) }
    ensures err { OnErr result (WritesPart (IsReplyOf replies.now.store.now) spec.sample_lines (K.held output.old) (K.held output.new)) }
    ensures counted { Rises (BoundsLineOf replies.now.is_optimised replies.now.store.now) spec.sample_lines steps.old steps.new }
{
    for line in sample_lines() {
        answer_line(replies, steps, line.as_bytes(), output)?;
    }
    Ok(())
}
